//! The roster of a case.
ghost use Rattle.std.specs.Prelude.{◌≡◌, ◌^◌, ◌<◌, ◌≤◌, ◌+◌, ◌++◌, ◌∷◌, List, length, map, IfOk, OnOk};
ghost use Rattle.gic_case.specs.declared.item.Substation.{Substation};
ghost use Rattle.gic_study_mode.specs.Roster.{rated_of, roster_of};
ghost use Rattle.gic_study_mode.specs.Seats.{seats_from};

use gic_base::{ElementId, OutOfMemory};
use gic_case::{Case, Substation};
use gic_criteria::Event;
use gic_monitor::{Rated, Roster, Seat};
use std::alloc::Global;

/// Adds the earthing of a substation, if it has one: the next element.
fn push_seat(seats: &mut Vec<Seat>, substation: &Substation) -> Result<(), OutOfMemory>
    requires { length seats.old.items < 2 ^ 16 }
    ensures seats { OnOk result ((rest : List Substation) → seats.new.items ++ seats_from (length seats.new.items) rest
        ≡ seats.old.items ++ seats_from (length seats.old.items) (substation.now ∷ rest)) }
    ensures count { OnOk result (length seats.new.items ≤ length seats.old.items + 1) }
{
    if substation.ground.is_some() {
        seats.push(Seat {
            name: substation.name,
            element: ElementId(seats.len() as u16),
        })?;
    }
    Ok(())
}

/// The earthings of a case, in substation order.
fn seats_of(alloc: Global, case: &Case) -> Result<Vec<Seat>, OutOfMemory>
    ensures { IfOk result (λ seats. seats.items ≡ seats_from 0 case.now.substations) }
{
    let mut seats = Vec::new(alloc);
    for substation in case.substations() {
        push_seat(&mut seats, substation)?;
    }
    Ok(seats)
}

/// The transformers of a case, in their order.
fn units_of(alloc: Global, case: &Case) -> Result<Vec<Rated>, OutOfMemory>
    ensures { IfOk result (λ units. units.items ≡ map rated_of case.now.transformers) }
{
    let mut units = Vec::new(alloc);
    for transformer in case.transformers() {
        units.push(Rated {
            name: transformer.name,
            high_volts: transformer.high_volts,
        })?;
    }
    Ok(units)
}

/// The roster of a case, with the threshold of an event.
#[tactic(auto, using(crate::proofs::Seats::all_seats))]
pub(crate) fn roster_of(alloc: Global, case: &Case, event: Event) -> Result<Roster, OutOfMemory>
    ensures { IfOk result (λ roster. roster ≡ roster_of case.now event) }
{
    let seats = seats_of(alloc, case)?;
    let units = units_of(alloc, case)?;
    Ok(Roster::new(event.threshold(), seats, units))
}
