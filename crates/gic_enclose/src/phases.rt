//! The sweeps that are enough for any network.
use gic_base::limits::MOST_WALK;

/// The sweeps of a phase, after which what is left is halved: two for each step of the longest way to earth.
pub(crate) const PHASE: u32 = 2 * MOST_WALK as u32;

/// The phases that are enough from any guesses: one for each halving, from 2^98 times what settled guesses have left.
pub(crate) const PHASES: u32 = 98;
