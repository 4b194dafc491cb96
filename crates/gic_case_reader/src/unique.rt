//! Names are unique in the whole case.
ghost use Rattle.std.specs.Prelude.{◌≡◌, ◌≤◌, ◌<◌, ◌^◌, IfOk, length};
ghost use Rattle.gic_base.specs.Refusals.{AnswersRead};
ghost use Rattle.gic_case_reader.specs.Rules.{written_names, duplicate_at};
ghost use Rattle.gic_case_reader.specs.Pass.{unique};

use crate::document::Rows;
use crate::list::push_names;
use crate::names::first_repeat;
use crate::refusal::CaseRefusal;
use gic_base::limits::{MOST_BUSES, MOST_LINES, MOST_SUBSTATIONS, MOST_ZONES};
use gic_base::{Name, ReadFault};
use gic_case::CaseList;
use std::alloc::{AllocError, Global};

/// The names of all rows, list after list.
fn names_of(alloc: Global, rows: &Rows) -> Result<Vec<Name>, AllocError>
    ensures { IfOk result (λ v. v.items ≡ written_names rows.now) }
{
    let mut names = Vec::new(alloc);
    push_names(&mut names, rows.zones.as_slice())?;
    push_names(&mut names, rows.substations.as_slice())?;
    push_names(&mut names, rows.buses.as_slice())?;
    push_names(&mut names, rows.lines.as_slice())?;
    push_names(&mut names, rows.transformers.as_slice())?;
    Ok(names)
}

/// The refusal for a place in the names, where the lists before the last have these lengths.
fn duplicate_at(
    zones: usize,
    substations: usize,
    buses: usize,
    lines: usize,
    i: usize,
) -> CaseRefusal
    requires zones { zones ≤ MOST_ZONES }
    requires substations { substations ≤ MOST_SUBSTATIONS }
    requires buses { buses ≤ MOST_BUSES }
    requires lines { lines ≤ MOST_LINES }
    requires place { i < 2 ^ 16 }
    ensures value { result ≡ duplicate_at zones substations buses lines i }
{
    let (list, before) = if i < zones {
        (CaseList::Zone, 0)
    } else if i < zones + substations {
        (CaseList::Substation, zones)
    } else if i < zones + substations + buses {
        (CaseList::Bus, zones + substations)
    } else if i < zones + substations + buses + lines {
        (CaseList::Line, zones + substations + buses)
    } else {
        (CaseList::Transformer, zones + substations + buses + lines)
    };
    CaseRefusal::Duplicate {
        list,
        row: (i - before) as u32 + 1,
    }
}

/// Whether no name comes twice.
#[tactic(auto, using(crate::proofs::Rows::names_length), unfolding(crate::specs::Pass::unique))]
pub(crate) fn unique(alloc: Global, rows: &Rows) -> Result<(), ReadFault<CaseRefusal>>
    ensures { AnswersRead (λ u. u) result (unique rows.now) }
{
    let names = names_of(alloc, rows)?;
    match first_repeat(alloc, names.as_slice())? {
        Some(i) => Err(ReadFault::Refused(duplicate_at(
            rows.zones.len(),
            rows.substations.len(),
            rows.buses.len(),
            rows.lines.len(),
            i,
        ))),
        None => Ok(()),
    }
}
