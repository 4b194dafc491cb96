//! Lists of switchings.
ghost use Rattle.std.specs.Prelude.{◌≡◌, IfOk};
ghost use Rattle.gic_base.specs.Refusals.{AnswersRead};
ghost use Rattle.gic_switch.specs.ItemsOf.{AreItemsOf};
ghost use Rattle.gic_switch.specs.Pass.{switchings_from};
ghost use Rattle.gic_switch.specs.Rules.{switchings_of};
ghost use Rattle.gic_switch.specs.SwitchingsView.{AreSwitchings};

use crate::action::is_head;
use crate::names::named_items;
use crate::pass::rows_in;
use crate::refusal::SwitchRefusal;
use csv::ByteRecord;
use gic_base::ReadFault;
use gic_case::Case;
use gic_model::Switching;
use gic_records::Records;
use std::alloc::Global;
use std::marker::Model;

/// Items of a case that open and close in the course of time: at most 4096 rows, whose times do not fall.
#[derive(Drop)]
pub struct Switchings {
    rows: Vec<Switching>,
}

impl Model for Switchings {
    ghost use Rattle.std.specs.Prelude.{List};
    ghost use Rattle.gic_model.specs.declared.parts.Switching as parts;
    ghost use Rattle.gic_switch.specs.SwitchingsView.{AreSwitchings};

    ghost Value = { List parts.Switching };

    ghost view = { λ s. s.rows.items };

    ghost invariant = { λ s. AreSwitchings s.rows.items };
}

/// The switchings that the records are.
#[tactic(auto, unfolding(crate::specs::Pass::switchings_from))]
fn switchings_from(
    alloc: Global,
    case: &Case,
    mut records: Records<'_>,
) -> Result<Switchings, ReadFault<SwitchRefusal>>
    ensures value { AnswersRead (λ s. s) result (switchings_from case.now records.entry) }
    ensures items { IfOk result (λ s. AreItemsOf case.now s) }
{
    let mut first = ByteRecord::new(alloc);
    if !records.read(&mut first)? {
        return Err(ReadFault::Refused(SwitchRefusal::Shape { row: 0 }));
    }
    if !is_head(&first) {
        return Err(ReadFault::Refused(SwitchRefusal::Shape { row: 0 }));
    }
    let items = named_items(alloc, case)?;
    let rows = rows_in(alloc, case, &items, &mut records)?;
    Ok(Switchings { rows })
}

/// Reads switchings over a case: records whose first is `time,item,action`. They are accepted exactly where they break no
/// rule, and the rows are then the records', with the items of the case in place of names. The first broken rule answers
/// otherwise. Out of memory may come in place of any answer.
#[tactic(auto, using(crate::proofs::PassLaws::switchings_of_law))]
pub fn read_switchings(
    alloc: Global,
    bytes: &[u8],
    case: &Case,
) -> Result<Switchings, ReadFault<SwitchRefusal>>
    ensures value { AnswersRead (λ s. s) result (switchings_of case.now bytes.now) }
    ensures items { IfOk result (λ s. AreItemsOf case.now s) }
{
    switchings_from(alloc, case, Records::new(alloc, bytes))
}

impl Switchings {
    /// The rows in order. The answer also tells what every list of switchings keeps.
    pub fn rows(&self) -> &[Switching]
        ensures value { result.now ≡ self.now }
        ensures sound { AreSwitchings self.now }
    {
        self.rows.as_slice()
    }
}
