//! Loops of spans, which close or stay open by little where the spans are right and the loop is small.
ghost use Rattle.std.specs.Prelude.{◌≡◌, ◌<◌, ◌++◌, length, OnOk};
ghost use Rattle.gic_case.specs.Sound.{IsSoundLine};
ghost use Rattle.gic_review.specs.Closures.{position_of_bus, closure_told, told_at_line};
ghost use Rattle.gic_review.specs.Closures.{places_after, closures_from, closures_of, AreLaidOut};

use crate::findings::finding::Finding;
use crate::findings::places::{Gap, Position, gap_of, is_open, join, start_places};
use crate::findings::span::{Span, span_of};
use gic_base::OutOfMemory;
use gic_case::{Case, Line};
use std::alloc::Global;

/// The place of a bus of the case: that of its substation.
fn position_of_bus(case: &Case, places: &[Position], bus: u16) -> Position
    requires bus { bus < length case.now.buses }
    requires count { length places.now ≡ length case.now.substations }
    requires laid { AreLaidOut places.now }
    ensures { result ≡ position_of_bus case.now.buses places.now bus }
{
    let bus = &case.buses()[bus as usize];
    places[bus.substation as usize]
}

/// Adds the gap of the loop that a line closes, where it is more than the loop may have.
fn push_closure(
    findings: &mut Vec<Finding>,
    line: &Line,
    span: &Span,
    gap: &Gap,
) -> Result<(), OutOfMemory>
    ensures { OnOk result (findings.new.items ≡ findings.old.items ++ closure_told line.now.name span.now gap.now) }
{
    if is_open(span, gap) {
        findings.push(Finding::Closure {
            name: line.name,
            north: gap.north,
            east: gap.east,
        })?;
    }
    Ok(())
}

/// Follows a line: it closes a loop, and is told where that stays open, or it joins two groups of places.
fn follow(
    findings: &mut Vec<Finding>,
    places: &mut [Position],
    case: &Case,
    line: &Line,
) -> Result<(), OutOfMemory>
    requires line { IsSoundLine case.now line.now }
    requires count { length places.old ≡ length case.now.substations }
    requires laid { AreLaidOut places.old }
    ensures told { OnOk result (findings.new.items ≡ findings.old.items ++ told_at_line case.now.buses places.old line.now) }
    ensures after { OnOk result (places.new ≡ places_after case.now.buses places.old line.now) }
{
    case.keeps_rules();
    let span = span_of(line);
    let from = position_of_bus(case, places, line.from);
    let to = position_of_bus(case, places, line.to);
    let gap = gap_of(&from, &span, &to);
    if from.group == to.group {
        return push_closure(findings, line, &span, &gap);
    }
    join(places, &from, &to, &gap);
    Ok(())
}

/// Adds the lines that close a loop which stays open.
pub(crate) fn push_closures(
    alloc: Global,
    findings: &mut Vec<Finding>,
    case: &Case,
) -> Result<(), OutOfMemory>
    ensures { OnOk result (findings.new.items ≡ findings.old.items ++ closures_of case.now) }
{
    let mut places = start_places(alloc, case.substations().len() as u16)?;
    push_closures_from(findings, &mut places, case)
}

/// Follows the lines of the case, in order, from these places.
fn push_closures_from(
    findings: &mut Vec<Finding>,
    places: &mut [Position],
    case: &Case,
) -> Result<(), OutOfMemory>
    requires count { length places.old ≡ length case.now.substations }
    requires laid { AreLaidOut places.old }
    ensures { OnOk result (findings.new.items ≡ findings.old.items ++ closures_from case.now.buses places.old case.now.lines) }
{
    for line in case.lines() {
        follow(findings, places, case, line)?;
    }
    Ok(())
}
