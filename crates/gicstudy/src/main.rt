//! The program `gicstudy`: geomagnetically induced currents in a transmission network, with proved bounds.
#![tactic(auto)]

use gic_headline::run;
use gic_system::{FileLibrary, StreamSink, SystemFiles};
use std::alloc::Global;
use std::process::ExitCode;
use std::{env, io};

/// The words after the program's name. An error is that memory ran out for them, or a word that is no text in UTF-8.
fn words(rt: &HostRuntime, alloc: Global) -> io::Result<Vec<String>> {
    Ok(env::args(rt)?.skip(1).collect(alloc)?)
}

/// Hands the words, the files and the streams of the system on, and ends with the status that it is answered.
fn main(rt: HostRuntime) -> ExitCode {
    let alloc = rt.alloc();
    let words = words(&rt, alloc);
    let mut out = StreamSink::new(rt.stdout());
    let mut err = StreamSink::new(rt.stderr());
    let mut library = FileLibrary::new(alloc, SystemFiles::new(rt));
    ExitCode::from(run(alloc, words, &mut library, &mut out, &mut err))
}
