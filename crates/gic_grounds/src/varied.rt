//! The potentials of varied solutions.

use crate::node_intervals::NodeIntervals;

/// The intervals of the potentials of a reference in units, and of the lifts that lower and raise them.
pub struct VariedPotentials {
    pub reference: NodeIntervals,
    pub lowering: NodeIntervals,
    pub raising: NodeIntervals,
}

impl Drop for VariedPotentials {
    /// Lets go of everything, in one step for whoever drops it.
    fn drop(self) {
        let VariedPotentials {
            reference: _reference,
            lowering: _lowering,
            raising: _raising,
        } = self;
    }
}

/// The ends of the potentials that a node may have in varied solutions. Which of the two is the greater isn't known where
/// the network has no varied solution.
#[derive(Clone, Copy, Debug)]
pub(crate) struct VariedEnds {
    pub low: i128,
    pub high: i128,
}
