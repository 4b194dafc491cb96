//! The values of fields.
ghost use Rattle.std.specs.Prelude.{◌≡◌, ◌≤◌, IfSome, IfOk};
ghost use Rattle.toml.specs.Data.{as_bool};
ghost use Rattle.toml.specs.View.{view, table_view};
ghost use Rattle.gic_base.specs.Refusals.{AnswersExactly};
ghost use Rattle.gic_case_reader.specs.declared.refusal.CaseRefusal.TheVariants as refusals;
ghost use Rattle.gic_case_reader.specs.Values.{natural_within, read_name};
ghost use Rattle.gic_case_reader.specs.Rows.{ohm_within, volts_within, metres_within, read_neutral};
ghost use Rattle.gic_case_reader.specs.Pass.{required, optional};

use crate::field::Field;
use crate::keys::at_key;
use crate::refusal::CaseRefusal;
use gic_base::Name;
use gic_case::{CaseList, Neutral};
use toml::{Table, Value};

/// The number that a value is, where it is one within bounds.
fn natural_within(low: u32, high: u32, value: &Value) -> Option<u32>
    ensures value { result ≡ natural_within low high (view value.now) }
    ensures within { IfSome result (λ n. (low ≤ n) × (n ≤ high)) }
{
    let number = value.as_integer()?;
    if i64::from(low) <= number && number <= i64::from(high) {
        Some(number as u32)
    } else {
        None
    }
}

/// The metres that a value is, where it is a number of at most 1000000 to either side.
pub(crate) fn metres_within(value: &Value) -> Option<i32>
    ensures { result ≡ metres_within (view value.now) }
{
    let number = value.as_integer()?;
    if -1000000 <= number && number <= 1000000 {
        Some(number as i32)
    } else {
        None
    }
}

/// The name that a value is, where it is one.
pub(crate) fn read_name(value: &Value) -> Option<Name>
    ensures { result ≡ read_name (view value.now) }
{
    match value.as_str() {
        Some(text) => Name::read(text.as_bytes()),
        None => None,
    }
}

/// The neutral device that a value is: a resistor in micro-ohm, or the word `blocked`.
#[tactic(auto, unfolding(crate::specs::Rows::device_in))]
fn read_neutral(value: &Value) -> Option<Neutral>
    ensures { result ≡ read_neutral (view value.now) }
{
    match value.as_str() {
        Some("blocked") => Some(Neutral::Blocked),
        Some(_) => None,
        None => natural_within(1000, 1000000000, value).map(Neutral::Resistor),
    }
}

/// The refusal of a row for the value of a field.
pub(crate) fn refused(list: CaseList, row: u32, at: Field) -> CaseRefusal
    ensures { result ≡ refusals.Value list row at }
{
    CaseRefusal::Value {
        list,
        row,
        field: at,
    }
}

/// A whole number, within bounds.
#[tactic(auto, unfolding(crate::specs::Pass::required))]
pub(crate) fn natural_at(
    list: CaseList,
    row: u32,
    at: Field,
    low: u32,
    high: u32,
    table: &Table,
) -> Result<u32, CaseRefusal>
    ensures value { AnswersExactly (λ n. n) result (required (natural_within low high) list row at (table_view table.now)) }
    ensures within { IfOk result (λ n. (low ≤ n) × (n ≤ high)) }
{
    match at_key(table, at.key()) {
        Some(value) => natural_within(low, high, value).ok_or(refused(list, row, at)),
        None => Err(refused(list, row, at)),
    }
}

/// A resistance in micro-ohm.
pub(crate) fn ohm_at(list: CaseList, row: u32, at: Field, table: &Table) -> Result<u32, CaseRefusal>
    ensures { AnswersExactly (λ n. n) result (required ohm_within list row at (table_view table.now)) }
{
    natural_at(list, row, at, 1000, 1000000000, table)
}

/// A rated voltage in V.
pub(crate) fn volts_at(
    list: CaseList,
    row: u32,
    at: Field,
    table: &Table,
) -> Result<u32, CaseRefusal>
    ensures { AnswersExactly (λ n. n) result (required volts_within list row at (table_view table.now)) }
{
    natural_at(list, row, at, 1000, 2000000, table)
}

/// A resistance in micro-ohm that may be absent.
#[tactic(auto, unfolding(crate::specs::Pass::optional))]
pub(crate) fn optional_ohm_at(
    list: CaseList,
    row: u32,
    at: Field,
    table: &Table,
) -> Result<Option<u32>, CaseRefusal>
    ensures { AnswersExactly (λ n. n) result (optional ohm_within list row at (table_view table.now)) }
{
    match at_key(table, at.key()) {
        Some(value) => {
            let number = natural_within(1000, 1000000000, value).ok_or(refused(list, row, at))?;
            Ok(Some(number))
        }
        None => Ok(None),
    }
}

/// A part of a span, in metres.
#[tactic(auto, unfolding(crate::specs::Pass::required))]
pub(crate) fn metres_at(
    list: CaseList,
    row: u32,
    at: Field,
    table: &Table,
) -> Result<i32, CaseRefusal>
    ensures { AnswersExactly (λ n. n) result (required metres_within list row at (table_view table.now)) }
{
    at_key(table, at.key())
        .and_then(metres_within)
        .ok_or(refused(list, row, at))
}

/// A name.
#[tactic(auto, unfolding(crate::specs::Pass::required))]
pub(crate) fn name_at(
    list: CaseList,
    row: u32,
    at: Field,
    table: &Table,
) -> Result<Name, CaseRefusal>
    ensures { AnswersExactly (λ n. n) result (required read_name list row at (table_view table.now)) }
{
    at_key(table, at.key())
        .and_then(read_name)
        .ok_or(refused(list, row, at))
}

/// A flag that may be absent.
#[tactic(auto, unfolding(crate::specs::Pass::optional))]
pub(crate) fn optional_flag_at(
    list: CaseList,
    row: u32,
    at: Field,
    table: &Table,
) -> Result<Option<bool>, CaseRefusal>
    ensures { AnswersExactly (λ b. b) result (optional as_bool list row at (table_view table.now)) }
{
    match at_key(table, at.key()) {
        Some(value) => Ok(Some(value.as_bool().ok_or(refused(list, row, at))?)),
        None => Ok(None),
    }
}

/// A neutral device that may be absent.
#[tactic(auto, unfolding(crate::specs::Pass::optional))]
pub(crate) fn optional_neutral_at(
    list: CaseList,
    row: u32,
    at: Field,
    table: &Table,
) -> Result<Option<Neutral>, CaseRefusal>
    ensures { AnswersExactly (λ n. n) result (optional read_neutral list row at (table_view table.now)) }
{
    match at_key(table, at.key()) {
        Some(value) => Ok(Some(read_neutral(value).ok_or(refused(list, row, at))?)),
        None => Ok(None),
    }
}
