//! The library that files are fetched from.
ghost use Rattle.std.specs.Prelude.{◌≡◌, ℕ, ◌<◌, ◌≤◌, List, [], length, Some, IfSome, IsSomeAnd, OnOk, IfOk, IsErrOf};
ghost use Rattle.std.specs.declared.option.Option.{Option};
ghost use Rattle.std.specs.FinMap.{get};
ghost use Rattle.std.specs.Io.{StartsWith};
ghost use Rattle.gic_files.specs.Files.{Files};
ghost use Rattle.gic_files.specs.Fetches.{HasFetched, failures_after};

use gic_base::{LIMIT, OutOfMemory};
use std::alloc::Global;

/// Why a fetch gave nothing.
#[derive(Clone, Copy, Debug, PartialEq, Eq)]
pub enum FetchRefusal {
    /// The library could not give the file; it has kept the name.
    Failed,
    /// The file is longer than the limit.
    TooLong,
    /// There was no memory for it.
    Memory,
}

impl From<OutOfMemory> for FetchRefusal {
    ghost use Rattle.std.specs.Prelude.{◌≡◌};
    ghost use Rattle.gic_files.specs.declared.library.FetchRefusal.TheVariants.{Memory};

    ghost from_gives = { λ _ e. e ≡ Memory };

    fn from(_refusal: OutOfMemory) -> FetchRefusal {
        FetchRefusal::Memory
    }
}

/// Files by name. A library that tells its content lets a contract say what was read.
pub trait Library {
    /// The files, where the library tells of them.
    ghost content: { Self → Option Files };

    /// The names that were fetched, in order.
    ghost fetched: { Self → List (List ℕ) };

    /// The names whose fetch failed, in order.
    ghost failures: { Self → List (List ℕ) };

    /// Fetches the file `name` of at most `limit` bytes into an empty list. A missing name fails. The content stays.
    fn fetch(&mut self, name: &str, limit: usize, into: &mut Vec<u8>) -> Result<(), FetchRefusal>
        requires { into.old.items ≡ [] }
        ensures content { content self.new ≡ content self.old }
        // The name is fetched once, whatever the answer; where memory wants it may not be.
        ensures fetched { HasFetched (fetched self.old) (fetched self.new) name.now result }
        // A failed fetch adds its name, and no other answer changes the list.
        ensures failures { failures self.new ≡ failures_after (failures self.old) name.now result }
        ensures limit { OnOk result (length into.new.items ≤ limit) }
        ensures whole { OnOk result (IfSome (content self.old) (λ files.
            get files name.now ≡ Some into.new.items)) }
        // What is too long comes as a prefix of it, of more than `limit` bytes.
        ensures too_long { IsErrOf result FetchRefusal.TooLong → limit < length into.new.items }
        ensures prefix { IsErrOf result FetchRefusal.TooLong → IfSome (content self.old) (λ files.
            IsSomeAnd (get files name.now) (λ bytes. StartsWith bytes into.new.items)) };
}

/// One fetch of a whole file, of at most [`LIMIT`] bytes. A refused call hands nothing out.
pub fn read_whole<L: Library>(
    alloc: Global,
    library: &mut L,
    name: &str,
) -> Result<Vec<u8>, FetchRefusal>
    ensures content { L.content library.new ≡ L.content library.old }
    ensures fetched { HasFetched (L.fetched library.old) (L.fetched library.new) name.now result }
    ensures failures { L.failures library.new ≡ failures_after (L.failures library.old) name.now result }
    ensures limit { IfOk result (λ bytes. length bytes.items ≤ LIMIT) }
    ensures whole { IfOk result (λ bytes. IfSome (L.content library.old) (λ files.
        get files name.now ≡ Some bytes.items)) }
    ensures too_long { IsErrOf result FetchRefusal.TooLong → IfSome (L.content library.old) (λ files.
        IsSomeAnd (get files name.now) (λ bytes. LIMIT < length bytes)) }
{
    let mut bytes = Vec::new(alloc);
    library.fetch(name, LIMIT, &mut bytes)?;
    Ok(bytes)
}
