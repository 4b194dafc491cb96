//! The call that this program makes.
ghost use Rattle.std.specs.Prelude.{◌≡◌, ◌≤◌, map, string_bytes, IfOk, IfErr};
ghost use Rattle.std.specs.IoError.{error_kind};
ghost use Rattle.gic_study.specs.Answers.{moment};
ghost use Rattle.gic_study.specs.ProgramEnds.{EndsAtOnce, status_without_words};
ghost use Rattle.gic_loss_study.specs.CountedEnds.{FirstEnds, CountedEnds};

use crate::table::table;
use gic_base::Sink;
use gic_files::Library;
use gic_monitor::{DwellMonitor, EarthMonitor, Monitor, TableLoss, VoltLoss};
use gic_study::{gicstudy, status_without_words};
use gic_text::read_decimal;
use std::alloc::Global;
use std::io;

/// How many monitors there are at most.
const MONITORS: i64 = 4;

/// The status where the first word is no count of monitors.
const NO_COUNT: u8 = 2;

/// The status where memory is wanting for the monitors.
const NO_MEMORY: u8 = 11;

/// The top call with the first `count` of the four monitors.
fn call_with_monitors<L: Library, S: Sink, E: Sink>(
    alloc: Global,
    count: usize,
    words: &[String],
    library: &mut L,
    out: &mut S,
    err: &mut E,
) -> u8
    ensures { FirstEnds count (map string_bytes words.now) (L.content library.old)
        (moment L.fetched L.failures S.written S.faults E.written E.faults library.old out.old err.old)
        (moment L.fetched L.failures S.written S.faults E.written E.faults library.new out.new err.new) result }
{
    let Ok(table) = table(alloc) else {
        return NO_MEMORY;
    };
    let (Ok(dwells), Ok(earthings), Ok(losses), Ok(by_table)) = (
        Box::new(alloc, DwellMonitor::new(alloc)),
        Box::new(alloc, EarthMonitor::new(alloc)),
        Box::new(alloc, VoltLoss::new(alloc, 1)),
        Box::new(alloc, TableLoss::new(alloc, table)),
    ) else {
        return NO_MEMORY;
    };
    let mut monitors: Vec<Box<dyn Monitor>> = Vec::new(alloc);
    let (Ok(()), Ok(()), Ok(()), Ok(())) = (
        monitors.push(dwells),
        monitors.push(earthings),
        monitors.push(losses),
        monitors.push(by_table),
    ) else {
        return NO_MEMORY;
    };
    monitors.truncate(count);
    gicstudy(alloc, words, library, out, err, monitors)
}

/// The top call with as many monitors as the first word says.
fn counted<L: Library, S: Sink, E: Sink>(
    alloc: Global,
    words: &[String],
    library: &mut L,
    out: &mut S,
    err: &mut E,
) -> u8
    ensures { CountedEnds (map string_bytes words.now) (L.content library.old)
        (moment L.fetched L.failures S.written S.faults E.written E.faults library.old out.old err.old)
        (moment L.fetched L.failures S.written S.faults E.written E.faults library.new out.new err.new) result }
{
    let Some((first, words)) = words.split_first() else {
        return NO_COUNT;
    };
    match read_decimal(first.as_bytes(), 0, MONITORS) {
        None => NO_COUNT,
        Some(count) => call_with_monitors(alloc, count as usize, words, library, out, err),
    }
}

/// Does what the words behind the first ask for, with as many of the four monitors as the first says, and answers the
/// status with which the program ends, as `gicstudy` of `gic_study` does.
///
/// The status is 2 also where the first word is none of 0 to 4 or a word is no text, and 11 where memory is wanting for
/// the words or for the monitors; then no file is fetched and nothing is written.
pub(crate) fn run<L: Library, S: Sink, E: Sink>(
    alloc: Global,
    words: io::Result<Vec<String>>,
    library: &mut L,
    out: &mut S,
    err: &mut E,
) -> u8
    ensures ends { IfOk words (λ words. CountedEnds (map string_bytes words.items) (L.content library.old)
        (moment L.fetched L.failures S.written S.faults E.written E.faults library.old out.old err.old)
        (moment L.fetched L.failures S.written S.faults E.written E.faults library.new out.new err.new) result) }
    ensures no_words { IfErr words (λ error. EndsAtOnce (status_without_words (error_kind error))
        (moment L.fetched L.failures S.written S.faults E.written E.faults library.old out.old err.old)
        (moment L.fetched L.failures S.written S.faults E.written E.faults library.new out.new err.new) result) }
{
    match words {
        Ok(words) => counted(alloc, &words, library, out, err),
        Err(error) => status_without_words(&error),
    }
}
