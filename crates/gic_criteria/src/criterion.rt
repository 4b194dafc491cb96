//! What an interval says of a transformer.

/// What the interval of a transformer's absolute effective current says against a threshold.
#[derive(Clone, Copy, PartialEq, Eq, Debug)]
pub enum Verdict {
    /// The current is below the threshold.
    Below,
    /// The current is the threshold or more.
    Reaches,
    /// The interval holds currents of both kinds.
    Undecided,
    /// The transformer isn't assessed.
    Outside,
}
