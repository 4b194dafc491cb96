//! Runs over files and streams in memory.
ghost use Rattle.std.specs.Prelude.{◌≡◌, ◌≢◌, [], map, string_bytes};
ghost use Rattle.gic_files.specs.Shelf.{files_of};
ghost use Rattle.gic_unit_tests.specs.Told.{IsReport, IsLineOfStatus};

use gic_ask::laws::answers_of_files_law;
use gic_files::MemoryLibrary;
use gic_study::laws::statuses_say_law;
use gic_study::run;
use gic_system::StreamSink;
use std::alloc::Global;

/// What a run left: its status, and the bytes of the output and of the error stream.
#[derive(Drop)]
pub struct Ended {
    pub status: u8,
    pub out: Vec<u8>,
    pub err: Vec<u8>,
}

/// Runs the program over these files, the first of a name, with streams that keep their bytes.
pub fn run_in_memory(alloc: Global, words: Vec<String>, files: Vec<(String, Vec<u8>)>) -> Ended
    ensures right { result.status ≡ 0 → IsReport (map string_bytes words.items)
        (files_of (map (λ f. (string_bytes f.0, f.1.items)) files.items)) result.out.items }
    ensures untold { result.status ≡ 0 → result.err.items ≡ [] }
    // The line of a fault, or a prefix of it where the error stream took no more.
    ensures told { result.status ≢ 0 → IsLineOfStatus result.status result.err.items }
    // A failed write, status 4, may leave a prefix of a report.
    ensures nothing { result.status ≢ 0 → result.status ≢ 4 → result.out.items ≡ [] }
{
    answers_of_files_law();
    statuses_say_law();
    let mut library = MemoryLibrary::new(alloc, files, Vec::new(alloc));
    let mut out = StreamSink::new(Vec::new(alloc));
    let mut err = StreamSink::new(Vec::new(alloc));
    let status = run(alloc, Ok(words), &mut library, &mut out, &mut err);
    Ended {
        status,
        out: out.into_stream(),
        err: err.into_stream(),
    }
}
