//! The limits of losses, each once.

/// The greatest scale of factors by rated voltage, in var per ampere and kilovolt.
pub const MOST_SCALE: u16 = 1000;

/// The greatest absolute effective current that counts, in milliamperes per phase.
pub(crate) const MOST_CURRENT: i128 = 1 << 70;
