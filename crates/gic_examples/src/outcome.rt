//! Runs of the top call over files in memory.
ghost use Rattle.std.specs.Prelude.{None};

use crate::attached::{NeverBegun, ViewCounter};
use crate::files::{TextFile, bytes_of};
use gic_base::{MemorySink, Sink, WriteFailed};
use gic_files::MemoryLibrary;
use gic_monitor::{DwellMonitor, EarthMonitor, Monitor, VoltLoss};
use gic_study::gicstudy;
use std::alloc::{AllocError, Global};

/// The names of the monitors that the program attaches, in its order.
const OF_THE_PROGRAM: &str = "dwell earth loss";

/// What a run meets: which of its calls fail, by their numbers from 0 (fetches, writes to the output, and writes to the
/// error sink), and the names of the monitors that are attached.
#[derive(Drop)]
pub struct Surroundings {
    pub fetches: Vec<u64>,
    pub writes: Vec<u64>,
    pub tellings: Vec<u64>,
    pub monitors: String,
}

impl Surroundings {
    /// No call fails, and the monitors are the program's.
    pub(crate) fn plain(alloc: Global) -> Result<Surroundings, AllocError> {
        Ok(Surroundings {
            fetches: Vec::new(alloc),
            writes: Vec::new(alloc),
            tellings: Vec::new(alloc),
            monitors: String::from_str(alloc, OF_THE_PROGRAM)?,
        })
    }
}

/// What a run left: its status, and what was written to the output and to the error sink.
#[derive(Drop)]
pub struct Ended {
    pub status: u8,
    pub out: Vec<u8>,
    pub err: Vec<u8>,
}

/// An output that takes one byte of each piece, and tells nothing.
#[derive(Drop)]
struct OneByteSink {
    bytes: Vec<u8>,
    faults: u64,
}

impl Sink for OneByteSink {
    ghost written = { λ _. None };

    ghost faults = { λ s. s.faults };

    fn write(&mut self, piece: &[u8]) -> Result<usize, WriteFailed> {
        match piece {
            [] => Ok(0),
            [first, ..] => {
                if self.bytes.push(*first).is_err() {
                    self.faults = self.faults.saturating_add(1);
                    return Err(WriteFailed);
                }
                Ok(1)
            }
        }
    }
}

/// Words as a program gets them: those of a line, with spaces between them.
fn words_of(alloc: Global, line: &str) -> Result<Vec<String>, AllocError> {
    let mut words = Vec::new(alloc);
    for word in line.split(' ') {
        if !word.is_empty() {
            words.push(String::from_str(alloc, word)?)?;
        }
    }
    Ok(words)
}

/// A library of these files.
fn library_of(
    alloc: Global,
    files: &[TextFile],
    failing: &[u64],
) -> Result<MemoryLibrary, AllocError> {
    let mut shelf = Vec::new(alloc);
    for file in files.iter().rev() {
        let name = String::from_str(alloc, file.name.as_str())?;
        let bytes = Vec::from_slice(alloc, file.bytes.as_slice())?;
        shelf.push((name, bytes))?;
    }
    Ok(MemoryLibrary::new(alloc, shelf, Vec::from_slice(alloc, failing)?))
}

/// Makes the top call with the monitors of these names, which have spaces between them. A name that no monitor has attaches
/// nothing.
fn call<S: Sink>(
    alloc: Global,
    words: &[String],
    library: &mut MemoryLibrary,
    out: &mut S,
    err: &mut MemorySink,
    names: &str,
) -> Result<u8, AllocError> {
    let mut monitors: Vec<Box<dyn Monitor>> = Vec::new(alloc);
    for name in names.split(' ') {
        match name {
            "dwell" => monitors.push(Box::new(alloc, DwellMonitor::new(alloc))?)?,
            "earth" => monitors.push(Box::new(alloc, EarthMonitor::new(alloc))?)?,
            "loss" => monitors.push(Box::new(alloc, VoltLoss::new(alloc, 1))?)?,
            "counting" => monitors.push(Box::new(alloc, ViewCounter::new(alloc))?)?,
            "refusing" => monitors.push(Box::new(alloc, NeverBegun)?)?,
            _ => {}
        }
    }
    Ok(gicstudy(alloc, words, library, out, err, monitors))
}

/// Runs the words of a line over these files.
pub(crate) fn run(
    alloc: Global,
    line: &str,
    files: &[TextFile],
    surroundings: &Surroundings,
) -> Result<Ended, AllocError> {
    let words = words_of(alloc, line)?;
    let mut library = library_of(alloc, files, surroundings.fetches.as_slice())?;
    let writes = Vec::from_slice(alloc, surroundings.writes.as_slice())?;
    let tellings = Vec::from_slice(alloc, surroundings.tellings.as_slice())?;
    let mut out = MemorySink::new(alloc, writes);
    let mut err = MemorySink::new(alloc, tellings);
    let names = surroundings.monitors.as_str();
    let status = call(alloc, &words, &mut library, &mut out, &mut err, names)?;
    Ok(Ended {
        status,
        out: Vec::from_slice(alloc, out.bytes())?,
        err: Vec::from_slice(alloc, err.bytes())?,
    })
}

/// Runs the words of a line over these files, with an output that takes one byte a call and doesn't fail.
pub(crate) fn run_byte_by_byte(
    alloc: Global,
    line: &str,
    files: &[TextFile],
    surroundings: &Surroundings,
) -> Result<Ended, AllocError> {
    let words = words_of(alloc, line)?;
    let mut library = library_of(alloc, files, surroundings.fetches.as_slice())?;
    let tellings = Vec::from_slice(alloc, surroundings.tellings.as_slice())?;
    let mut out = OneByteSink {
        bytes: Vec::new(alloc),
        faults: 0,
    };
    let mut err = MemorySink::new(alloc, tellings);
    let names = surroundings.monitors.as_str();
    let status = call(alloc, &words, &mut library, &mut out, &mut err, names)?;
    Ok(Ended {
        status,
        out: out.bytes,
        err: Vec::from_slice(alloc, err.bytes())?,
    })
}

/// The file `p` cut after a given number of bytes, alone.
fn prefix_of(alloc: Global, whole: &[u8], length: usize) -> Result<Vec<TextFile>, AllocError> {
    let mut file = TextFile::new(alloc, "p")?;
    file.bytes.extend_from_slice(whole)?;
    file.bytes.truncate(length);
    let mut files = Vec::new(alloc);
    files.push(file)?;
    Ok(files)
}

/// Runs the words of a line over each prefix of the file `p`. The output has a line `STATUS FIRST LAST` for each run of
/// prefixes that end with one status, by their lengths.
pub(crate) fn run_prefixes(
    alloc: Global,
    line: &str,
    files: &[TextFile],
    surroundings: &Surroundings,
) -> Result<Ended, AllocError> {
    let whole = bytes_of(files, "p");
    let mut text = String::new(alloc);
    let (mut first, mut status) = (0usize, 255u8);
    for length in 0..=whole.len() {
        let prefix = prefix_of(alloc, whole, length)?;
        let ended = run(alloc, line, prefix.as_slice(), surroundings)?;
        if ended.status != status {
            if length > 0 {
                let last = length - 1;
                text.push_str(format!(in alloc; "{status} {first} {last}\n")?.as_str())?;
            }
            first = length;
            status = ended.status;
        }
    }
    let last = whole.len();
    text.push_str(format!(in alloc; "{status} {first} {last}\n")?.as_str())?;
    Ok(Ended {
        status: 0,
        out: text.into_bytes(),
        err: Vec::new(alloc),
    })
}
