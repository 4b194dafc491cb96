//! What the views of a study are of.
ghost use Rattle.std.specs.Prelude.{◌≡◌};

use gic_base::{ElementId, Name};
use std::marker::Model;

/// An earthing: the name of its substation, and its own place among the elements.
#[derive(Clone, Copy, Debug)]
pub struct Seat {
    pub name: Name,
    pub element: ElementId,
}

/// A transformer: its name, and the rated voltage of its high side in volts.
#[derive(Clone, Copy, Debug)]
pub struct Rated {
    pub name: Name,
    pub high_volts: u32,
}

/// A threshold in milliamperes per phase, the earthings, and the transformers, called units. The place of a unit here
/// is its place in a view.
#[derive(Drop)]
pub struct Roster {
    threshold: u32,
    seats: Vec<Seat>,
    units: Vec<Rated>,
}

impl Model for Roster {
    ghost use Rattle.gic_monitor.specs.RosterView.{RosterView};

    ghost Value = { RosterView };

    ghost view = { λ r. record { threshold = r.threshold; seats = r.seats.items; units = r.units.items } };
}

impl Roster {
    /// The roster of these earthings and units, with a threshold in milliamperes per phase.
    pub fn new(threshold: u32, seats: Vec<Seat>, units: Vec<Rated>) -> Roster
        ensures { result ≡ record { threshold = threshold; seats = seats.items; units = units.items } }
    {
        Roster {
            threshold,
            seats,
            units,
        }
    }

    /// The threshold, in milliamperes per phase.
    pub fn threshold(&self) -> u32
        ensures { result ≡ self.now.threshold }
    {
        self.threshold
    }

    /// The earthings.
    pub fn seats(&self) -> &[Seat]
        ensures { result.now ≡ self.now.seats }
    {
        self.seats.as_slice()
    }

    /// The units.
    pub fn units(&self) -> &[Rated]
        ensures { result.now ≡ self.now.units }
    {
        self.units.as_slice()
    }
}
