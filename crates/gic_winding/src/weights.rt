//! What a transformer's effective current is made of.
use gic_base::ElementId;

/// The windings of a transformer in element order, each with its weight in V, and the voltage of the high side in V. The
/// sum of the weights times the currents of the windings in all three phases, over three times the voltage of the high
/// side, is the transformer's signed effective current per phase: the one that gives the same ampere-turns in a winding
/// of the high side's voltage.
#[derive(Clone, Copy, Debug, PartialEq, Eq)]
pub struct Weights {
    pub first: Option<(ElementId, u32)>,
    pub second: Option<(ElementId, u32)>,
    pub third: Option<(ElementId, u32)>,
    pub high_volts: u32,
}
