//! What the program tells and writes, through the call that it makes.
use crate::memory::run_in_memory;
use crate::worked::CASE_P;
use std::alloc::{AllocError, Global};
use std::test::Fail;

/// The loop of the case P has 3.2 ohm in all, and 100 volts for each 1000 mV/km to the north: these three steps give at most
/// 31250 mA in a transformer, and never the threshold.
const STORM: &str = "time,north,east\n0,-3000,0\n60,1000,0\n120,2000,0\n";

/// The words of a line, with a space between each two.
fn words_of(alloc: Global, line: &str) -> Result<Vec<String>, AllocError> {
    let mut words = Vec::new(alloc);
    for word in line.split(' ') {
        words.push(String::from_str(alloc, word)?)?;
    }
    Ok(words)
}

/// The case `p` and the storm `s`.
fn files(alloc: Global) -> Result<Vec<(String, Vec<u8>)>, AllocError> {
    let mut files = Vec::new(alloc);
    for (name, text) in [("p", CASE_P), ("s", STORM)] {
        let name = String::from_str(alloc, name)?;
        files.push((name, Vec::from_slice(alloc, text.as_bytes())?))?;
    }
    Ok(files)
}

#[test]
fn tells_refusals_on_the_error_stream(rt: HostRuntime) -> Result<(), Fail> {
    let alloc = rt.alloc();
    let table = [
        ("list", 2, "gicstudy: usage: missing --case\n"),
        ("list --case=q", 3, "gicstudy: cannot read case\n"),
        (
            "robust --case=p",
            2,
            "gicstudy: usage: missing --tolerance\n",
        ),
    ];
    for (line, status, told) in table {
        let ended = run_in_memory(alloc, words_of(alloc, line)?, files(alloc)?);
        assert_eq!(rt; ended.status, status);
        assert!(rt; ended.out.is_empty());
        assert!(rt; ended.err.as_slice() == told.as_bytes());
    }
    Ok(())
}

#[test]
fn attaches_three_monitors_to_a_study(rt: HostRuntime) -> Result<(), Fail> {
    let alloc = rt.alloc();
    let words = words_of(alloc, "study --case=p --storm=s")?;
    let ended = run_in_memory(alloc, words, files(alloc)?);
    assert_eq!(rt; ended.status, 0);
    assert!(rt; ended.err.is_empty());
    let Ok(text) = String::from_utf8(ended.out) else {
        return Err(Fail::new("no text"));
    };
    let mut rest = text.as_str();
    let parts = [
        "study\nwidth 100 threshold 75000 steps 3\npeaks\n",
        "monitor 1 26\ndwell TA 0 0\ndwell TB 0 0\nmonitor 2 ",
        "\nearth A ",
        "\nearth B ",
        "\nmonitor 3 ",
        "\nloss ",
        " step 1\nend\n",
    ];
    for part in parts {
        match rest.split_once(part) {
            Some((_, behind)) => rest = behind,
            None => return Err(Fail::new(part)),
        }
    }
    assert!(rt; rest.is_empty());
    Ok(())
}
