//! The names that a library keeps of its fetches.
ghost use Rattle.std.specs.Prelude.{◌≡◌, [], ◌∷◌, ◌++◌, map, string_bytes, IsErr, OnOk};
ghost use Rattle.gic_files.specs.Fetches.{FailsWith};

use crate::library::FetchRefusal;
use gic_base::OutOfMemory;
use std::alloc::Global;

/// Keeps a name behind those that are kept. Where no memory is found for it, these stay as they are.
pub fn keep_name(alloc: Global, names: &mut Vec<String>, name: &str) -> Result<(), OutOfMemory>
    ensures kept { OnOk result (map string_bytes names.new.items ≡ map string_bytes names.old.items ++ name.now ∷ []) }
    ensures stays { IsErr result → map string_bytes names.new.items ≡ map string_bytes names.old.items }
{
    names.push(String::from_str(alloc, name)?)?;
    Ok(())
}

/// Keeps the name of a failed fetch, and says how the fetch is to answer.
pub fn failed_fetch(alloc: Global, failures: &mut Vec<String>, name: &str) -> FetchRefusal
    ensures { FailsWith (map string_bytes failures.old.items) (map string_bytes failures.new.items) name.now result }
{
    match keep_name(alloc, failures, name) {
        Ok(()) => FetchRefusal::Failed,
        Err(OutOfMemory) => FetchRefusal::Memory,
    }
}
