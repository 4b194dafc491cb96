//! Documents, and the rows of their lists.
ghost use Rattle.std.specs.Prelude.{◌≡◌, ◌≤◌, IfOk, length};
ghost use Rattle.toml.specs.View.{table_view};
ghost use Rattle.gic_base.specs.Refusals.{AnswersRead, AnswersExactly};
ghost use Rattle.gic_base.specs.Passes.{or_refuse, test};
ghost use Rattle.gic_case_reader.specs.declared.refusal.CaseRefusal.TheVariants.{NotToml, Key};
ghost use Rattle.gic_case.specs.declared.case_list.CaseList.TheVariants as lists;
ghost use Rattle.gic_case_reader.specs.Keys.{fits_document};
ghost use Rattle.gic_case_reader.specs.Rules.{WrittenRows, document_of};
ghost use Rattle.gic_case_reader.specs.Pass.{rows_of};

use crate::format::format_at;
use crate::keys::fits_document;
use crate::list::list_at;
use crate::refusal::CaseRefusal;
use crate::row::{BusRow, LineRow, TransformerRow};
use gic_base::ReadFault;
use gic_case::{CaseList, Substation, Zone};
use std::alloc::Global;
use std::marker::Model;
use toml::Table;

/// The document that bytes are.
pub(crate) fn document_of(alloc: Global, bytes: &[u8]) -> Result<Table, ReadFault<CaseRefusal>>
    ensures { AnswersRead (λ t. table_view t) result (or_refuse (document_of bytes.now) NotToml) }
{
    match toml::table_from_slice(alloc, bytes) {
        Ok(table) => Ok(table),
        Err(e) => {
            if e.is_memory() {
                Err(ReadFault::Memory)
            } else {
                Err(ReadFault::Refused(CaseRefusal::NotToml))
            }
        }
    }
}

/// Whether the document has the keys that it may and must have.
fn document_keys(table: &Table) -> Result<(), CaseRefusal>
    ensures { AnswersExactly (λ u. u) result (test (fits_document (table_view table.now)) (Key lists.Document 0)) }
{
    if fits_document(table) {
        Ok(())
    } else {
        Err(CaseRefusal::Key {
            list: CaseList::Document,
            row: 0,
        })
    }
}

/// The rows as they are written, with names in place of references.
#[derive(Drop)]
pub(crate) struct Rows {
    pub(crate) zones: Vec<Zone>,
    pub(crate) substations: Vec<Substation>,
    pub(crate) buses: Vec<BusRow>,
    pub(crate) lines: Vec<LineRow>,
    pub(crate) transformers: Vec<TransformerRow>,
}

impl Model for Rows {
    ghost use Rattle.std.specs.Prelude.{◌≤◌, length};
    ghost use Rattle.gic_base.specs.declared.limits.TheConstants.{MOST_ZONES, MOST_SUBSTATIONS, MOST_BUSES, MOST_LINES, MOST_TRANSFORMERS};
    ghost use Rattle.gic_case_reader.specs.Rules.{WrittenRows};

    ghost Value = { WrittenRows };

    ghost view = { λ r. record {
      zones = r.zones.items;
      substations = r.substations.items;
      buses = r.buses.items;
      lines = r.lines.items;
      transformers = r.transformers.items;
    } };

    ghost invariant = { λ r. (length r.zones.items ≤ MOST_ZONES) × (length r.substations.items ≤ MOST_SUBSTATIONS)
        × (length r.buses.items ≤ MOST_BUSES) × (length r.lines.items ≤ MOST_LINES)
        × (length r.transformers.items ≤ MOST_TRANSFORMERS) };
}

impl Rows {
    /// The rows that a document has.
    #[tactic(auto, unfolding(crate::specs::Pass::rows_of))]
    pub(crate) fn read(alloc: Global, table: &Table) -> Result<Rows, ReadFault<CaseRefusal>>
        ensures { AnswersRead (λ r. r) result (rows_of (table_view table.now)) }
    {
        document_keys(table)?;
        let format = format_at(table)?;
        let zones = list_at(alloc, CaseList::Zone, format, table)?;
        let substations = list_at(alloc, CaseList::Substation, format, table)?;
        let buses = list_at(alloc, CaseList::Bus, format, table)?;
        let lines = list_at(alloc, CaseList::Line, format, table)?;
        let transformers = list_at(alloc, CaseList::Transformer, format, table)?;
        Ok(Rows {
            zones,
            substations,
            buses,
            lines,
            transformers,
        })
    }
}
