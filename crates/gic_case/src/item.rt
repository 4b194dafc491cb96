//! The items of a case's lists. Zones are those of the scaling of fields.

use crate::course::Course;
use crate::kind::Kind;
use gic_base::Name;

/// A node with its earthing, if it has one, in micro-ohm from 1000 to 1000000000, for the three phases together. The
/// tolerance of its ground is in per cent, from 0 to 90, where it has one of its own; without a ground it has none.
#[derive(Clone, Copy, Debug, PartialEq, Eq)]
pub struct Substation {
    pub name: Name,
    pub ground: Option<u32>,
    pub tolerance: Option<u8>,
}

/// A bus, with the place of its substation in the case's list, from 0.
#[derive(Clone, Copy, Debug, PartialEq, Eq)]
pub struct Bus {
    pub name: Name,
    pub substation: u16,
}

/// A line between two buses, which are places in the case's list, from 0. Its parts lead from `from` to `to`, at most
/// 1000000 metres to the north and to the south together, and as far to the east and to the west. The resistance is in
/// micro-ohm per phase, from 1000 to 1000000000. A blocked line has a series capacitor, which passes no direct current.
#[derive(Drop)]
pub struct Line {
    pub name: Name,
    pub from: u16,
    pub to: u16,
    pub course: Course,
    pub resistance: u32,
    pub blocked: bool,
}

/// A device in a transformer's neutral.
#[derive(Clone, Copy, Debug, PartialEq, Eq)]
pub enum Neutral {
    /// A resistor between the neutral and the ground grid, in micro-ohm from 1000 to 1000000000, for the three phases
    /// together.
    Resistor(u32),
    /// A device that passes no direct current.
    Blocked,
}

/// A transformer, with the rated voltage of its high side in V, from 1000 to 2000000. Its buses are places in the case's
/// list, from 0. With a neutral device of either kind its neutral is a node of its own, named as the transformer; without
/// one it is the ground grid of the substation of its buses. A delta-delta unit has no neutral device.
#[derive(Clone, Copy, Debug, PartialEq, Eq)]
pub struct Transformer {
    pub name: Name,
    pub high_volts: u32,
    pub kind: Kind<u16>,
    pub neutral: Option<Neutral>,
}
