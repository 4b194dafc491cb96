//! The case that bytes are.
ghost use Rattle.toml.specs.View.{table_view};
ghost use Rattle.gic_base.specs.Refusals.{AnswersRead};
ghost use Rattle.gic_case_reader.specs.Rules.{case_of};
ghost use Rattle.gic_case_reader.specs.Pass.{case_in};

use crate::degree::few_ends;
use crate::document::{Rows, document_of};
use crate::reference::resolve;
use crate::refusal::CaseRefusal;
use crate::side::{
    lines_have_two_buses, sides_have_own_buses, stand_in_one_substation, voltages_are_ordered,
};
use crate::unique::unique;
use gic_base::ReadFault;
use gic_case::Case;
use std::alloc::Global;
use toml::Table;

/// The case that a document is.
#[tactic(auto, unfolding(crate::specs::Pass::case_in))]
fn case_in(alloc: Global, table: &Table) -> Result<Case, ReadFault<CaseRefusal>>
    ensures { AnswersRead (λ c. c) result (case_in (table_view table.now)) }
{
    let rows = Rows::read(alloc, table)?;
    unique(alloc, &rows)?;
    let network = resolve(alloc, rows)?;
    lines_have_two_buses(network.lines.as_slice())?;
    let transformers = network.transformers.as_slice();
    sides_have_own_buses(transformers)?;
    stand_in_one_substation(network.buses.as_slice(), transformers)?;
    voltages_are_ordered(transformers)?;
    few_ends(alloc, &network)?;
    Ok(Case::of(network))
}

/// Reads a case: a TOML document with a `format` of 1, 2 or 3 and the lists `zone`, `substation`, `bus`, `line` and
/// `transformer`. Neutral devices are of formats 2 and 3; scales of zones, lines in parts, third windings, reactors and the
/// greater limits of lists are of format 3 alone. The case is accepted exactly where it breaks no rule, and its lists are
/// then the document's, with places in place of names. The first broken rule answers otherwise: the form of the document
/// and of each row, unique names, references to rows that are there, two buses for each line and a bus of its own for each
/// side of a transformer, transformers in one substation, low and third voltages not above the high ones, and at most 256
/// elements at a node. Out of memory may come in place of any answer.
pub fn read_case(alloc: Global, bytes: &[u8]) -> Result<Case, ReadFault<CaseRefusal>>
    ensures { AnswersRead (λ c. c) result (case_of bytes.now) }
{
    let table = document_of(alloc, bytes)?;
    case_in(alloc, &table)
}
