//! The limits of a certificate's numbers, each once.

/// The greatest guess of a certificate, either way, in grains of 2^-36 nanovolt.
pub const MOST_WRITTEN_GUESS: u128 = 1 << 95;

/// The greatest radius of a certificate, in grains of 2^-36 nanovolt.
pub const MOST_WRITTEN_RADIUS: u128 = 1 << 126;

/// The greatest number of nodes that the second line of a certificate may tell.
pub const MOST_WRITTEN_NODES: u16 = u16::MAX;

/// The greatest rounded residual with which a certificate passes, in units of 2^-44 nanoampere. The radii that such
/// residuals ask for fit in 128 bits.
pub const MOST_CHECKED_RESIDUAL: u128 = 1 << 110;

/// The greatest checked step of such residuals, in grains of 2^-36 nanovolt.
pub(crate) const MOST_CHECKED_STEP: u128 = 1 << 112;

/// No radius of a certificate that is made of settled guesses is above this, in grains of 2^-36 nanovolt.
pub const MOST_MADE_RADIUS: u128 = 1 << 31;

/// The words of a line that are looked at: one more than any line of a certificate has.
pub(crate) const MOST_WORDS: usize = 7;
