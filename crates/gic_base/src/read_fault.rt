//! Why a reader with rules gives nothing.
ghost use Rattle.std.specs.Prelude.{◌≡◌};
ghost use Rattle.gic_base.specs.declared.read_fault.ReadFault.TheVariants.{Memory};

use std::alloc::{AllocError, AllocFailed};

/// What was read breaks a rule, or there was no memory to read it.
#[derive(Clone, Copy, Debug, PartialEq, Eq)]
pub enum ReadFault<R> {
    /// The first rule that it breaks.
    Refused(R),
    /// There was no memory for it.
    Memory,
}

impl<R: Drop> From<AllocError> for ReadFault<R> {
    ghost from_gives = { λ _ e. e ≡ Memory };

    fn from(_e: AllocError) -> ReadFault<R> {
        ReadFault::Memory
    }
}

impl<R: Drop, T: Drop> From<AllocFailed<T>> for ReadFault<R> {
    ghost from_gives = { λ _ e. e ≡ Memory };

    fn from(_e: AllocFailed<T>) -> ReadFault<R> {
        ReadFault::Memory
    }
}
