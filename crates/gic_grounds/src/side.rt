//! The two sides of a reference.

/// To which side a lift moves potentials.
#[derive(Clone, Copy, Debug, PartialEq, Eq)]
pub enum Side {
    /// How far the potentials of varied solutions may lie below those of the reference.
    Lowering,
    /// How far they may lie above.
    Raising,
}
