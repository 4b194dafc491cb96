//! The fields of the zones at a step.
ghost use Rattle.std.specs.Prelude.{◌≡◌, ◌≤◌, length, All};
ghost use Rattle.gic_induce.specs.Fields.{IsField};
ghost use Rattle.gic_storm.specs.Steps.{steps_in, step_at};
ghost use Rattle.gic_storm.specs.StepFields.{is_for, last_for, field_in_row, field_at_step, fields_at_step};

use crate::row::StormRow;
use crate::storm::Storm;
use gic_induce::Fields;

/// Whether a row is for a zone.
fn is_for(row: &StormRow, zone: u16) -> bool
    ensures { result ≡ is_for row.now.zone zone }
{
    match row.zone {
        None => true,
        Some(named) => named == zone,
    }
}

/// The last of the rows that is for a zone.
#[tactic(auto, unfolding(crate::specs::StepFields::last_for))]
fn last_for(rows: &[StormRow], zone: u16) -> Option<StormRow>
    ensures { result ≡ last_for rows.now zone }
{
    rows.iter().rev().copied().find(|row| is_for(row, zone))
}

/// The field of a zone at a step with these rows: north and east.
fn field_at_step(rows: &[StormRow], zone: u16) -> (i32, i32)
    requires { All (λ r. IsField (field_in_row r)) rows.now }
    ensures value { result ≡ field_at_step rows.now zone }
    ensures within { IsField result }
{
    match last_for(rows, zone) {
        None => (0, 0),
        Some(row) => (row.north, row.east),
    }
}

/// Leaves in `out` the field of each zone at a step, counted from 1: that of the last row of the step that is for the
/// zone, and (0, 0) where there is none.
pub fn fill_fields(storm: &Storm, number: u32, out: &mut Fields)
    requires least { 1 ≤ number }
    requires most { number ≤ length (steps_in storm.now.rows) }
    requires zones { length out.old ≡ storm.now.zones }
    ensures { out.new ≡ fields_at_step storm.now.zones (step_at storm.now.rows number) }
{
    let rows = storm.step(number);
    for zone in 0..storm.zones() {
        let (north, east) = field_at_step(rows, zone);
        out.set(zone, north, east);
    }
}
