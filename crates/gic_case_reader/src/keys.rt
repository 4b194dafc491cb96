//! The keys that tables may and must have.
ghost use Rattle.std.specs.Prelude.{◌≡◌, option_map, ◌||◌};
ghost use Rattle.toml.specs.Data.{get_member};
ghost use Rattle.toml.specs.View.{view, table_view};
ghost use Rattle.gic_base.specs.Refusals.{AnswersExactly};
ghost use Rattle.gic_case_reader.specs.Keys.{is_key_of, is_list_key, is_document_key, has, has_only, has_all, fits, fits_document};
ghost use Rattle.gic_case_reader.specs.Rows.{members_in};
ghost use Rattle.gic_case_reader.specs.Pass.{row_table};

use crate::field::{Field, is_among};
use crate::refusal::CaseRefusal;
use gic_case::CaseList;
use toml::{Table, Value};

/// Whether a key is that of one of these lists.
#[tactic(auto, unfolding(crate::specs::Keys::is_list_key))]
fn is_list_key(lists: &[CaseList], key: &str) -> bool
    ensures { result ≡ is_list_key lists.now key.now }
{
    lists.iter().any(|list| key == list.word())
}

/// Whether the document may have a key.
fn is_document_key(key: &str) -> bool
    ensures { result ≡ is_document_key key.now }
{
    is_among(&[Field::Format], key)
        || is_list_key(
            &[
                CaseList::Zone,
                CaseList::Substation,
                CaseList::Bus,
                CaseList::Line,
                CaseList::Transformer,
            ],
            key,
        )
}

/// The value at a key.
pub(crate) fn at_key<'a>(table: &'a Table, key: &str) -> Option<&'a Value>
    ensures { option_map (λ v. view v.now) result ≡ get_member key.now (table_view table.now) }
{
    table.get(key)
}

/// Whether a table has a field.
pub(crate) fn has(table: &Table, at: Field) -> bool
    ensures { result ≡ has at (table_view table.now) }
{
    at_key(table, at.key()).is_some()
}

/// Whether a value is a table that has a field.
pub(crate) fn has_in(value: &Value, at: Field) -> bool
    ensures { result ≡ has at (members_in (view value.now)) }
{
    match value.as_table() {
        Some(table) => has(table, at),
        None => false,
    }
}

/// Whether a table has each of these fields.
#[tactic(auto, unfolding(crate::specs::Keys::has_all))]
fn has_all(fields: &[Field], table: &Table) -> bool
    ensures { result ≡ has_all fields.now (table_view table.now) }
{
    fields.iter().all(|at| has(table, *at))
}

/// Whether a table has no key but those of these fields.
fn has_only(required: &[Field], others: &[Field], table: &Table) -> bool
    ensures { result ≡ has_only (λ k. is_key_of required.now k || is_key_of others.now k) (table_view table.now) }
{
    for key in table.keys() {
        let key = key.as_str();
        if !(is_among(required, key) || is_among(others, key)) {
            return false;
        }
    }
    true
}

/// Whether a table has the fields that it must have, and no key but of these and the others.
pub(crate) fn fits(required: &[Field], others: &[Field], table: &Table) -> bool
    ensures { result ≡ fits required.now others.now (table_view table.now) }
{
    has_only(required, others, table) && has_all(required, table)
}

/// Whether the document has the keys that it must have, and no others but those that it may have.
pub(crate) fn fits_document(table: &Table) -> bool
    ensures { result ≡ fits_document (table_view table.now) }
{
    for key in table.keys() {
        if !is_document_key(key.as_str()) {
            return false;
        }
    }
    has(table, Field::Format)
}

/// The table of a row, with the fields that it must have, and no key but of these and the others.
#[tactic(auto, unfolding(crate::specs::Pass::row_table))]
pub(crate) fn row_table<'a>(
    list: CaseList,
    required: &[Field],
    others: &[Field],
    row: u32,
    value: &'a Value,
) -> Result<&'a Table, CaseRefusal>
    ensures { AnswersExactly (λ t. table_view t.now) result (row_table list required.now others.now row (view value.now)) }
{
    match value.as_table() {
        Some(table) if fits(required, others, table) => Ok(table),
        _ => Err(CaseRefusal::Key { list, row }),
    }
}
