//! A library that is kept in memory.
ghost use Rattle.std.specs.Prelude.{◌≡◌, ℕ, ◌<◌, ◌≤◌, List, [], length, map, Some, None, IsSomeAnd, OnOk, IsErrOf, string_bytes};
ghost use Rattle.std.specs.Option.{option_map};
ghost use Rattle.std.specs.Cmp.Lexicographic.{slice_cmp};
ghost use Rattle.std.specs.Ordering.{nat_cmp};
ghost use Rattle.std.specs.FinMap.{find, get};
ghost use Rattle.std.specs.Io.{StartsWith};
ghost use Rattle.gic_files.specs.Fetches.{HasFetched, failures_after};
ghost use Rattle.gic_files.specs.Shelf.{files_of, IsNextCall};

use crate::kept_names::{failed_fetch, keep_name};
use crate::library::{FetchRefusal, Library};
use std::alloc::Global;
use std::marker::Model;

/// Keeps files; the first of a name counts. The calls whose number, from 0, is in a list fail, and so does a fetch of a
/// missing name. Where no memory is found to keep a name, the answer is out of memory.
#[derive(Drop)]
pub struct MemoryLibrary {
    alloc: Global,
    files: Vec<(String, Vec<u8>)>,
    failing: Vec<u64>,
    calls: u64,
    fetched: Vec<String>,
    failures: Vec<String>,
}

impl Model for MemoryLibrary {
    ghost use Rattle.std.specs.Prelude.{map, string_bytes};
    ghost use Rattle.gic_files.specs.Shelf.{Shelf};

    ghost Value = { Shelf };

    ghost view = { λ s. record { files = map (λ f. (string_bytes f.0, f.1.items)) s.files.items; failing = s.failing.items; calls = s.calls; fetched = map string_bytes s.fetched.items; failures = map string_bytes s.failures.items } };
}

/// The bytes of the first file of a name.
fn find_file<'a>(files: &'a [(String, Vec<u8>)], name: &str) -> Option<&'a Vec<u8>>
    ensures { option_map (λ bytes. bytes.now.items) result
        ≡ find (slice_cmp nat_cmp) name.now (map (λ f. (string_bytes f.0, f.1.items)) files.now) }
{
    for file in files {
        if name == file.0.as_str() {
            return Some(&file.1);
        }
    }
    None
}

/// Hands out a file of at most `limit` bytes, or of a longer one a prefix.
fn hand_out(bytes: &[u8], limit: usize, into: &mut Vec<u8>) -> Result<(), FetchRefusal>
    requires { into.old.items ≡ [] }
    ensures whole { OnOk result ((into.new.items ≡ bytes.now) × (length bytes.now ≤ limit)) }
    ensures too_long { IsErrOf result FetchRefusal.TooLong → (limit < length into.new.items) × StartsWith bytes.now into.new.items }
    ensures failed { ¬ IsErrOf result FetchRefusal.Failed }
{
    let part = if bytes.len() > limit {
        &bytes[..limit + 1]
    } else {
        bytes
    };
    if into.extend_from_slice(part).is_err() {
        return Err(FetchRefusal::Memory);
    }
    if bytes.len() > limit {
        return Err(FetchRefusal::TooLong);
    }
    Ok(())
}

impl MemoryLibrary {
    /// A library of these files, without fetches so far. Takes no memory; the handle is kept for later growth.
    pub fn new(alloc: Global, files: Vec<(String, Vec<u8>)>, failing: Vec<u64>) -> MemoryLibrary
        ensures { result ≡ record { files = map (λ f. (string_bytes f.0, f.1.items)) files.items; failing = failing.items; calls = 0; fetched = []; failures = [] } }
    {
        MemoryLibrary {
            alloc,
            files,
            failing,
            calls: 0,
            fetched: Vec::new(alloc),
            failures: Vec::new(alloc),
        }
    }
}

impl Library for MemoryLibrary {
    ghost content = { λ s. Some (files_of s.files) };

    ghost fetched = { λ s. s.fetched };

    ghost failures = { λ s. s.failures };

    fn fetch(&mut self, name: &str, limit: usize, into: &mut Vec<u8>) -> Result<(), FetchRefusal>
        requires { into.old.items ≡ [] }
        ensures content { Some (files_of self.new.files) ≡ Some (files_of self.old.files) }
        ensures fetched { HasFetched self.old.fetched self.new.fetched name.now result }
        ensures failures { self.new.failures ≡ failures_after self.old.failures name.now result }
        ensures limit { OnOk result (length into.new.items ≤ limit) }
        ensures whole { OnOk result (get (files_of self.old.files) name.now ≡ Some into.new.items) }
        ensures too_long { IsErrOf result FetchRefusal.TooLong → limit < length into.new.items }
        ensures prefix { IsErrOf result FetchRefusal.TooLong → IsSomeAnd (get (files_of self.old.files) name.now)
            (λ bytes. StartsWith bytes into.new.items) }
        // It fails at the calls named and at missing names, out of memory aside, and at no others.
        ensures call { IsNextCall self.old self.new name.now result }
    {
        let call = self.calls;
        self.calls = call.saturating_add(1);
        keep_name(self.alloc, &mut self.fetched, name)?;
        if self.failing.contains(&call) {
            return Err(failed_fetch(self.alloc, &mut self.failures, name));
        }
        match find_file(&self.files, name) {
            None => Err(failed_fetch(self.alloc, &mut self.failures, name)),
            Some(bytes) => hand_out(bytes, limit, into),
        }
    }
}
