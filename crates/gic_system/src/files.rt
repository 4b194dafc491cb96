//! The files of the system.
ghost use Rattle.std.specs.Prelude.{◌≡◌, ℕ, ◌<◌, ◌≤◌, List, [], ◌∷◌, ◌++◌, length, map, string_bytes, None, Some, IfSome, IsSomeAnd, IfOk};
ghost use Rattle.std.specs.Prelude.{OnOk, IsErr, IsErrOf};
ghost use Rattle.std.specs.declared.option.Option.{Option};
ghost use Rattle.std.specs.FinMap.{get};
ghost use Rattle.std.specs.Io.{StartsWith};
ghost use Rattle.gic_files.specs.Files.{Files};

use crate::tries::read_some;
use gic_base::OutOfMemory;
use gic_files::{FetchRefusal, Library, failed_fetch, keep_name};
use std::alloc::Global;
use std::fs;
use std::fs::File;
use std::io::Read;

/// Where files are opened by name. It keeps a log of the names.
pub trait Opener {
    /// What an opened file is read through.
    type File: Read + Drop;

    /// The files, where the opener tells of them.
    ghost content: { Self → Option Files };

    /// The names under which a file was opened, or couldn't be, in order.
    ghost opened: { Self → List (List ℕ) };

    /// Opens the file of this name at its beginning, or answers None where it can't be opened. The content stays.
    fn open(&mut self, name: &str) -> Result<Option<Self::File>, OutOfMemory>
        ensures content { content self.new ≡ content self.old }
        // This name is opened, once, and no other; where there is no memory to keep it, none is.
        ensures opened { OnOk result (opened self.new ≡ opened self.old ++ name.now ∷ []) }
        ensures none { IsErr result → opened self.new ≡ opened self.old }
        // What is opened is there, and is read whole.
        ensures bytes { IfOk result (λ found. IfSome found (λ file. IfSome (content self.old) (λ files.
            IsSomeAnd (get files name.now) (λ bytes. Self.File.Read.remaining file ≡ Some bytes)))) };
}

/// The files of the system, which tell nothing of what they hold. Each name is kept before its file is opened.
#[derive(Drop)]
pub struct SystemFiles {
    rt: HostRuntime,
    alloc: Global,
    opened: Vec<String>,
}

impl SystemFiles {
    /// The files that a program with this handle reaches, none of them opened. Takes no memory.
    pub fn new(rt: HostRuntime) -> SystemFiles
        ensures { result.opened.items ≡ [] }
    {
        let alloc = rt.alloc();
        SystemFiles {
            rt,
            alloc,
            opened: Vec::new(alloc),
        }
    }
}

impl Opener for SystemFiles {
    type File = File;

    ghost content = { λ _. None };

    ghost opened = { λ s. map string_bytes s.opened.items };

    fn open(&mut self, name: &str) -> Result<Option<File>, OutOfMemory> {
        keep_name(self.alloc, &mut self.opened, name)?;
        Ok(fs::open(&self.rt, name).ok())
    }
}

/// The files that an opener opens: what is fetched is what is opened. It keeps the names of failed fetches; where no memory
/// is found for one, the answer is out of memory.
#[derive(Drop)]
pub struct FileLibrary<O> {
    alloc: Global,
    opener: O,
    failures: Vec<String>,
}

impl<O: Opener> FileLibrary<O> {
    /// A library without failed fetches. Takes no memory; the handle is kept for later growth.
    pub fn new(alloc: Global, opener: O) -> FileLibrary<O>
        ensures opener { result.opener ≡ opener }
        ensures failures { result.failures.items ≡ [] }
    {
        FileLibrary {
            alloc,
            opener,
            failures: Vec::new(alloc),
        }
    }
}

/// Reads to the end into an empty list, but for what is longer than `limit` bytes.
fn read_to_end<R: Read>(
    reader: &mut R,
    limit: usize,
    into: &mut Vec<u8>,
) -> Result<(), FetchRefusal>
    requires { into.old.items ≡ [] }
    ensures limit { OnOk result (length into.new.items ≤ limit) }
    ensures whole { OnOk result (IfSome (R.remaining reader.old) (λ bytes. bytes ≡ into.new.items)) }
    ensures too_long { IsErrOf result FetchRefusal.TooLong → limit < length into.new.items }
    ensures prefix { IsErrOf result FetchRefusal.TooLong → IfSome (R.remaining reader.old) (λ bytes.
        StartsWith bytes into.new.items) }
{
    let mut buffer = [0u8; 4096];
    for _ in 0..u64::MAX {
        match read_some(reader, &mut buffer) {
            Ok(0) => return Ok(()),
            Ok(n) => {
                if into.extend_from_slice(&buffer[..n]).is_err() {
                    return Err(FetchRefusal::Memory);
                }
                if into.len() > limit {
                    return Err(FetchRefusal::TooLong);
                }
            }
            Err(_) => return Err(FetchRefusal::Failed),
        }
    }
    Err(FetchRefusal::Failed)
}

impl<O: Opener> Library for FileLibrary<O> {
    ghost content = { λ s. O.content s.opener };

    ghost fetched = { λ s. O.opened s.opener };

    ghost failures = { λ s. map string_bytes s.failures.items };

    fn fetch(&mut self, name: &str, limit: usize, into: &mut Vec<u8>) -> Result<(), FetchRefusal> {
        let Some(mut file) = self.opener.open(name)? else {
            return Err(failed_fetch(self.alloc, &mut self.failures, name));
        };
        match read_to_end(&mut file, limit, into) {
            Err(FetchRefusal::Failed) => Err(failed_fetch(self.alloc, &mut self.failures, name)),
            answer => answer,
        }
    }
}

#[cfg(test)]
mod tests {
    use super::*;
    use std::test::Fail;

    #[test]
    fn fetches_files_of_the_system(rt: HostRuntime) -> Result<(), Fail> {
        let alloc = rt.alloc();
        // 10000 bytes, which no one read takes.
        let mut kept = Vec::new(alloc);
        for number in 0..10000u32 {
            kept.push((number % 251) as u8)?;
        }
        fs::write(&rt, "fetched", kept.as_slice())?;
        let mut library = FileLibrary::new(alloc, SystemFiles::new(rt));
        let mut whole = Vec::new(alloc);
        let mut prefix = Vec::new(alloc);
        let mut none = Vec::new(alloc);
        let found = library.fetch("fetched", 10000, &mut whole);
        let longer = library.fetch("fetched", 9999, &mut prefix);
        let empty = library.fetch("/dev/null", 0, &mut none);
        let endless = library.fetch("/dev/zero", 10, &mut Vec::new(alloc));
        let missing = library.fetch("no/such/file", 100, &mut Vec::new(alloc));
        let folder = library.fetch("/dev", 100, &mut Vec::new(alloc));
        let none_named = library.fetch("", 100, &mut Vec::new(alloc));
        if found != Ok(()) || whole != kept {
            return Err(Fail::new("a whole file"));
        }
        if longer != Err(FetchRefusal::TooLong) || !kept.starts_with(&prefix) {
            return Err(Fail::new("a file of one byte too many"));
        }
        if empty != Ok(()) || !none.is_empty() {
            return Err(Fail::new("an empty file"));
        }
        if endless != Err(FetchRefusal::TooLong) {
            return Err(Fail::new("an endless file"));
        }
        if missing != Err(FetchRefusal::Failed) || none_named != Err(FetchRefusal::Failed) {
            return Err(Fail::new("a missing file"));
        }
        if folder != Err(FetchRefusal::Failed) {
            return Err(Fail::new("a folder"));
        }
        Ok(())
    }
}
