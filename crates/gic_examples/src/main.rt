//! Worked examples, run through the whole program: the acceptance tests. `data/README.txt` says how one is written.
#![tactic(auto)]

mod attached;
mod comparison;
mod files;
mod outcome;
mod script;

use script::Script;
use std::process::ExitCode;
use std::{env, fs, io};

/// Runs the examples of all files, and tells how many went wrong.
fn run_files(rt: &HostRuntime) -> io::Result<u32> {
    let (mut examples, mut wrong) = (0u32, 0u32);
    for name in env::args(rt)?.skip(1) {
        let text = fs::read_to_string(rt, name.as_str())?;
        let mut script = Script::new(rt.alloc())?;
        for line in text.as_str().lines() {
            script.follow(rt, line)?;
        }
        script.close(rt)?;
        examples = examples.saturating_add(script.examples);
        wrong = wrong.saturating_add(script.wrong);
    }
    println!(rt; "{examples} examples, {wrong} wrong")?;
    Ok(wrong)
}

/// Ends with status 0 where each example came out, with 1 where one didn't, and with 2 where a file could not be read,
/// a line could not be printed or memory was wanting.
fn main(rt: HostRuntime) -> ExitCode {
    match run_files(&rt) {
        Ok(0) => ExitCode::SUCCESS,
        Ok(_) => ExitCode::from(1),
        Err(_) => ExitCode::from(2),
    }
}
