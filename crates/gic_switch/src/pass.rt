//! Records read as switchings, one after another.
ghost use Rattle.std.specs.Prelude.{◌≡◌, ◌≤◌, IfOk, vec_len, unwrap_or};
ghost use Rattle.std.specs.List.Sorted.{IsNonDecreasingBy};
ghost use Rattle.std.specs.HashMap.{get};
ghost use Rattle.csv.specs.Records.{fields_of};
ghost use Rattle.gic_base.specs.Refusals.{AnswersRead};
ghost use Rattle.gic_case.specs.Names.{same};
ghost use Rattle.gic_switch.specs.declared.refusal.SwitchRefusal.TheVariants.{TooMany};
ghost use Rattle.gic_switch.specs.ItemsOf.{FindsNamed, IsItemOf, AreItemsOf};
ghost use Rattle.gic_switch.specs.Pass.{row_in, switching_rows};

use crate::action::{action_in, follows};
use crate::item::item_in;
use crate::refusal::SwitchRefusal;
use csv::ByteRecord;
use gic_base::limits::MOST_SWITCHINGS;
use gic_base::{Name, ReadFault};
use gic_case::Case;
use gic_model::{Item, Switching};
use gic_records::{Records, RowReader, read_rows, text_at, time_in};
use std::alloc::Global;
use std::collections::HashMap;

/// The switching that a record is, after a record of the time before.
#[tactic(auto, unfolding(crate::specs::Pass::row_in, crate::specs::Columns::switching_follows))]
fn row_in(
    case: &Case,
    items: &HashMap<Name, Item>,
    row: u32,
    before: Option<u32>,
    columns: &ByteRecord,
) -> Result<Switching, SwitchRefusal>
    requires { FindsNamed case.now (get same items.now) }
    ensures value { result ≡ row_in case.now row before (fields_of columns.now) }
    ensures order { IfOk result (λ s. unwrap_or before 0 ≤ s.time) }
    ensures item { IfOk result (λ s. IsItemOf case.now s.item) }
{
    if columns.len() != 3 {
        return Err(SwitchRefusal::Shape { row });
    }
    let time = time_in(columns).ok_or(SwitchRefusal::Number { row })?;
    if !follows(before, time) {
        return Err(SwitchRefusal::Order { row });
    }
    let action = action_in(columns).ok_or(SwitchRefusal::Action { row })?;
    let item = item_in(case, items, action, text_at(columns, 1)).ok_or(SwitchRefusal::Item {
        row,
    })?;
    Ok(Switching {
        time,
        item,
        opens: action.opens(),
    })
}

/// How the records of a list of switchings are read over a case, whose items are found by name.
#[derive(Drop)]
struct SwitchRows<'a> {
    case: &'a Case,
    items: &'a HashMap<Name, Item>,
    ghost finds: { FindsNamed case.now (get same items.now) },
}

impl RowReader for SwitchRows<'_> {
    type Row = Switching;

    type Refusal = SwitchRefusal;

    ghost reads = { λ s. row_in s.case.now };

    ghost time_of = { λ r. r.time };

    ghost keeps = { λ s r. IsItemOf s.case.now r.item };

    ghost late = { TooMany };

    fn read(
        &self,
        row: u32,
        before: Option<u32>,
        columns: &ByteRecord,
    ) -> Result<Switching, SwitchRefusal> {
        row_in(self.case, self.items, row, before, columns)
    }

    fn time(row: &Switching) -> u32
        ensures { result ≡ row.now.time }
    {
        row.time
    }

    fn too_many() -> SwitchRefusal
        ensures { result ≡ TooMany }
    {
        SwitchRefusal::TooMany
    }
}

/// The switchings of the records that are left. Their times do not fall.
pub(crate) fn rows_in(
    alloc: Global,
    case: &Case,
    items: &HashMap<Name, Item>,
    records: &mut Records<'_>,
) -> Result<Vec<Switching>, ReadFault<SwitchRefusal>>
    requires { FindsNamed case.now (get same items.now) }
    ensures value { AnswersRead (λ v. v.items) result (switching_rows case.now records.old) }
    ensures few { IfOk result (λ v. vec_len v ≤ MOST_SWITCHINGS) }
    ensures ordered { IfOk result (λ v. IsNonDecreasingBy (λ s. s.time) v.items) }
    ensures items { IfOk result (λ v. AreItemsOf case.now v.items) }
{
    let reader = SwitchRows { case, items };
    read_rows(alloc, &reader, MOST_SWITCHINGS as u32, records)
}
