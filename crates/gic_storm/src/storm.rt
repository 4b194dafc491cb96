//! Storms.
ghost use Rattle.std.specs.Prelude.{◌≡◌, ◌≤◌, ◌-◌, slice_index_or, take, drop, IfOk, length, All, None, []};
ghost use Rattle.gic_base.specs.Refusals.{AnswersRead};
ghost use Rattle.gic_storm.specs.Pass.{storm_from};
ghost use Rattle.gic_storm.specs.Rules.{storm_of};
ghost use Rattle.gic_storm.specs.StormView.{IsRow, IsStorm, zone_names};
ghost use Rattle.gic_storm.specs.Steps.{steps_in, step_at, time_of_step, starts_from, is_new};

use crate::form::form_of;
use crate::pass::rows_in;
use crate::refusal::StormRefusal;
use crate::row::StormRow;
use csv::ByteRecord;
use gic_base::ReadFault;
use gic_base::limits::{MOST_ROWS, MOST_ZONES};
use gic_case::{Case, Zone};
use gic_records::Records;
use std::alloc::{AllocError, Global};
use std::marker::Model;

/// The fields of the zones of a case in the course of time: 1 to 20000 rows, whose times do not fall.
pub struct Storm {
    zones: u16,
    rows: Vec<StormRow>,
    starts: Vec<u32>,
}

impl Model for Storm {
    ghost use Rattle.std.specs.Prelude.{◌≡◌, None};
    ghost use Rattle.gic_storm.specs.StormView.{StormView, IsStorm};
    ghost use Rattle.gic_storm.specs.Steps.{starts_from};

    ghost Value = { StormView };

    ghost view = { λ s. record { zones = s.zones; rows = s.rows.items } };

    ghost invariant = { λ s. IsStorm (record { zones = s.zones; rows = s.rows.items })
        × (s.starts.items ≡ starts_from 0 None s.rows.items) };
}

impl Drop for Storm {
    /// Lets go of everything, in one step for whoever drops it.
    fn drop(self) {
        let Storm {
            zones: _zones,
            rows: _rows,
            starts: _starts,
        } = self;
    }
}

/// Whether a time is another than the one before.
fn is_new(before: Option<u32>, time: u32) -> bool
    ensures { result ≡ is_new before time }
{
    match before {
        None => true,
        Some(before) => before != time,
    }
}

/// The places of the rows that begin a step.
fn starts_of(alloc: Global, rows: &[StormRow]) -> Result<Vec<u32>, AllocError>
    requires { length rows.now ≤ MOST_ROWS }
    ensures { IfOk result (λ v. v.items ≡ starts_from 0 None rows.now) }
{
    let mut starts = Vec::new(alloc);
    let mut before = None;
    for (i, row) in rows.iter().enumerate() {
        if is_new(before, row.time) {
            starts.push(i as u32)?;
        }
        before = Some(row.time);
    }
    Ok(starts)
}

/// The storm that the records are.
#[tactic(auto, unfolding(crate::specs::Pass::storm_from))]
fn storm_from(
    alloc: Global,
    zones: &[Zone],
    mut records: Records<'_>,
) -> Result<Storm, ReadFault<StormRefusal>>
    requires { length zones.now ≤ MOST_ZONES }
    ensures value { AnswersRead (λ s. s) result (storm_from (zone_names zones.now) records.entry) }
    ensures zones { IfOk result (λ s. s.zones ≡ length zones.now) }
{
    let mut first = ByteRecord::new(alloc);
    if !records.read(&mut first)? {
        return Err(ReadFault::Refused(StormRefusal::Shape { row: 0 }));
    }
    let form = form_of(&first).ok_or(ReadFault::Refused(StormRefusal::Shape { row: 0 }))?;
    let rows = rows_in(alloc, form, zones, &mut records)?;
    if rows.is_empty() {
        return Err(ReadFault::Refused(StormRefusal::Empty));
    }
    let starts = starts_of(alloc, rows.as_slice())?;
    Ok(Storm {
        zones: zones.len() as u16,
        rows,
        starts,
    })
}

/// Reads a storm over the zones of a case: records whose first is `time,north,east` or `time,zone,north,east`. It is
/// accepted exactly where it breaks no rule, and its rows are then the records', with places in place of the names of
/// zones. The first broken rule answers otherwise. Out of memory may come in place of any answer.
#[tactic(auto, using(crate::proofs::PassLaws::storm_of_law))]
pub fn read_storm(
    alloc: Global,
    bytes: &[u8],
    case: &Case,
) -> Result<Storm, ReadFault<StormRefusal>>
    ensures value { AnswersRead (λ s. s) result (storm_of (zone_names case.now.zones) bytes.now) }
    ensures zones { IfOk result (λ s. s.zones ≡ length case.now.zones) }
{
    storm_from(alloc, case.zones(), Records::new(alloc, bytes))
}

impl Storm {
    /// The rows in order. The answer also tells what every storm keeps.
    pub fn rows(&self) -> &[StormRow]
        ensures value { result.now ≡ self.now.rows }
        ensures sound { IsStorm self.now }
    {
        self.rows.as_slice()
    }

    /// How many zones the case has that the storm was read with.
    pub fn zones(&self) -> u16
        ensures { result ≡ self.now.zones }
    {
        self.zones
    }

    /// How many steps there are, from 1 to 20000. The answer also tells what every storm keeps.
    pub fn steps(&self) -> u32
        ensures value { result ≡ length (steps_in self.now.rows) }
        ensures least { 1 ≤ result }
        ensures most { result ≤ MOST_ROWS }
        ensures sound { IsStorm self.now }
    {
        self.starts.len() as u32
    }

    /// The rows of a step, counted from 1. There is one at least, and all have the time of the step.
    pub fn step(&self, number: u32) -> &[StormRow]
        requires least { 1 ≤ number }
        requires most { number ≤ length (steps_in self.now.rows) }
        ensures value { result.now ≡ step_at self.now.rows number }
        ensures some { 1 ≤ length result.now }
        ensures time { All (λ r. r.time ≡ time_of_step self.now.rows number) result.now }
        ensures sound { All (IsRow self.now.zones) result.now }
    {
        let place = number as usize;
        let (starts, rows) = (self.starts.as_slice(), self.rows.as_slice());
        let start = start_at(starts, place - 1, rows.len());
        let end = start_at(starts, place, rows.len());
        part(rows, start, end)
    }
}

/// Where the step at a place begins, or the number of rows past the last.
fn start_at(starts: &[u32], place: usize, whole: usize) -> usize
    ensures { result ≡ slice_index_or starts.now place whole }
{
    match starts.get(place) {
        Some(start) => *start as usize,
        None => whole,
    }
}

/// The rows between two places.
fn part(rows: &[StormRow], start: usize, end: usize) -> &[StormRow]
    requires ordered { start ≤ end }
    requires within { end ≤ length rows.now }
    ensures { result.now ≡ take (end - start) (drop start rows.now) }
{
    &rows[start..end]
}
