//! A program with monitors of its own: those of `gicstudy`, and losses by a table of factors.
//!
//! Its first word says how many of the four monitors see the steps, from 0 to 4 and in the order in which `study.rt` has
//! them, so that one program can tell what they cost. The further words are those of `gicstudy`.
#![tactic(auto)]

mod study;
mod table;

use gic_system::{FileLibrary, StreamSink, SystemFiles};
use std::alloc::Global;
use std::process::ExitCode;
use std::{env, io};
use study::run;

/// The words after the program's name. An error is that memory ran out for them, or a word that is no text in UTF-8.
fn words(rt: &HostRuntime, alloc: Global) -> io::Result<Vec<String>> {
    Ok(env::args(rt)?.skip(1).collect(alloc)?)
}

/// Hands the words, the files and the streams of the system on, and ends with the status that it is answered.
fn main(rt: HostRuntime) -> ExitCode {
    let alloc = rt.alloc();
    let words = words(&rt, alloc);
    let mut out = StreamSink::new(rt.stdout());
    let mut err = StreamSink::new(rt.stderr());
    let mut library = FileLibrary::new(alloc, SystemFiles::new(rt));
    ExitCode::from(run(alloc, words, &mut library, &mut out, &mut err))
}
