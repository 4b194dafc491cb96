//! The call that the program makes.
ghost use Rattle.std.specs.Prelude.{◌≡◌, false, map, string_bytes, IfOk, IfErr};
ghost use Rattle.std.specs.IoError.{error_kind};
ghost use Rattle.gic_ask.specs.Within.{IsAskedWithinRanges};
ghost use Rattle.gic_ask.specs.declared.request.Asked.{Asked};
ghost use Rattle.gic_files.specs.Files.{fetches};
ghost use Rattle.gic_stand.specs.Serves.{Shown, shown};
ghost use Rattle.gic_study.specs.Answers.{Explains, moment};
ghost use Rattle.gic_study.specs.Concluding.{Concludes};
ghost use Rattle.gic_study.specs.Modes.{Plans};
ghost use Rattle.gic_study.specs.ProgramEnds.{EndsAtOnce, ProgramEnds, status_without_words};
ghost use Rattle.gic_study.specs.ProgramPlans.{is_study, program_plans};

use crate::fault::{Fault, Wanting};
use crate::modes::serve;
use crate::study::ended;
use gic_ask::{Asked, ask};
use gic_base::Sink;
use gic_files::Library;
use gic_monitor::{DwellMonitor, EarthMonitor, Monitor, VoltLoss};
use std::alloc::Global;
use std::io;
use std::io::ErrorKind;

/// The status where memory is wanting for the words.
const NO_MEMORY: u8 = 11;

/// The status where a word is no text.
const NO_TEXT: u8 = 2;

/// The status where the words can't be had: 11 where memory runs out, and 2 for a word that is no text.
pub fn status_without_words(error: &io::Error) -> u8
    ensures { result ≡ status_without_words (error_kind error.now) }
{
    match error.kind() {
        ErrorKind::OutOfMemory => NO_MEMORY,
        _ => NO_TEXT,
    }
}

/// Whether monitors see the steps of what is asked for: those of a study, and of nothing else.
fn is_study(asked: &Asked) -> bool
    ensures { result ≡ is_study asked.now }
{
    match asked {
        Asked::Network(_, _) => false,
        Asked::Study(_) => true,
        Asked::Make(_) => false,
        Asked::Recheck(_) => false,
        Asked::Series(_) => false,
        Asked::Robust(_) => false,
    }
}

/// Ends without a byte, since memory is wanting before the network is looked at.
fn without_memory<S: Sink>(out: &mut S) -> Result<(), Fault>
    ensures { (plans : Plans) (asked : Asked) → Concludes plans asked (shown S.written S.faults out.old) (shown S.written S.faults out.new) result }
{
    let _ = out;
    Err(Fault::Memory(Wanting::Workspace))
}

/// Writes the report of what is asked for with the program's monitors.
fn serve_with_monitors<S: Sink>(alloc: Global, asked: Asked, out: &mut S) -> Result<(), Fault>
    requires { IsAskedWithinRanges asked }
    ensures { Concludes program_plans asked (shown S.written S.faults out.old) (shown S.written S.faults out.new) result }
{
    let (Ok(dwells), Ok(earthings), Ok(losses)) = (
        Box::new(alloc, DwellMonitor::new(alloc)),
        Box::new(alloc, EarthMonitor::new(alloc)),
        Box::new(alloc, VoltLoss::new(alloc, 1)),
    ) else {
        return without_memory(out);
    };
    let mut monitors: Vec<Box<dyn Monitor>> = Vec::new(alloc);
    let (Ok(()), Ok(()), Ok(())) = (
        monitors.push(dwells),
        monitors.push(earthings),
        monitors.push(losses),
    ) else {
        return without_memory(out);
    };
    serve(alloc, asked, monitors, out)
}

/// Writes the report of what is asked for where that is no study: no monitor is made.
fn serve_alone<S: Sink>(alloc: Global, asked: Asked, out: &mut S) -> Result<(), Fault>
    requires ranges { IsAskedWithinRanges asked }
    requires no_study { is_study asked ≡ false }
    ensures { Concludes program_plans asked (shown S.written S.faults out.old) (shown S.written S.faults out.new) result }
{
    serve(alloc, asked, Vec::new(alloc), out)
}

/// Writes the report of what is asked for. The program's monitors are made for a study alone.
fn serve_attached<S: Sink>(alloc: Global, asked: Asked, out: &mut S) -> Result<(), Fault>
    requires { IsAskedWithinRanges asked }
    ensures { Concludes program_plans asked (shown S.written S.faults out.old) (shown S.written S.faults out.new) result }
{
    if is_study(&asked) {
        serve_with_monitors(alloc, asked, out)
    } else {
        serve_alone(alloc, asked, out)
    }
}

/// Writes the report that the words ask for, with the program's monitors.
fn attached_report<L: Library, S: Sink>(
    alloc: Global,
    words: &[String],
    library: &mut L,
    out: &mut S,
) -> Result<(), Fault>
    // Whatever the error sink shows.
    ensures { (told_before told_now : Shown) → Explains (record {
      words = map string_bytes words.now;
      files = L.content library.old;
      plans = program_plans;
      before = record { fetches = fetches L.fetched L.failures library.old; out = shown S.written S.faults out.old; err = told_before };
      now = record { fetches = fetches L.fetched L.failures library.new; out = shown S.written S.faults out.new; err = told_now };
    }) result }
{
    match ask(alloc, words, library) {
        Err(fault) => Err(Fault::Input(fault)),
        Ok(asked) => serve_attached(alloc, asked, out),
    }
}

/// The top call with the program's monitors.
fn call_with_monitors<L: Library, S: Sink, E: Sink>(
    alloc: Global,
    words: &[String],
    library: &mut L,
    out: &mut S,
    err: &mut E,
) -> u8
    ensures { ProgramEnds (map string_bytes words.now) (L.content library.old)
        (moment L.fetched L.failures S.written S.faults E.written E.faults library.old out.old err.old)
        (moment L.fetched L.failures S.written S.faults E.written E.faults library.new out.new err.new) result }
{
    let answer = attached_report(alloc, words, library, out);
    ended(answer, err)
}

/// Does what the words ask for, with the monitors of dwells, of earthings, and of losses by volts with scale 1, in this
/// order, and answers the status with which the program ends, as `gicstudy` of `gic_study` does. The monitors are made
/// for a study alone, once it is known what is asked for.
///
/// The status is 11 also where memory is wanting for the words, and 2 where a word is no text; then no file is fetched and
/// nothing is written.
pub fn run<L: Library, S: Sink, E: Sink>(
    alloc: Global,
    words: io::Result<Vec<String>>,
    library: &mut L,
    out: &mut S,
    err: &mut E,
) -> u8
    // With words: the status, the output and the line on `err` are those of the top call.
    ensures ends { IfOk words (λ words. ProgramEnds (map string_bytes words.items) (L.content library.old)
        (moment L.fetched L.failures S.written S.faults E.written E.faults library.old out.old err.old)
        (moment L.fetched L.failures S.written S.faults E.written E.faults library.new out.new err.new) result) }
    ensures no_words { IfErr words (λ error. EndsAtOnce (status_without_words (error_kind error))
        (moment L.fetched L.failures S.written S.faults E.written E.faults library.old out.old err.old)
        (moment L.fetched L.failures S.written S.faults E.written E.faults library.new out.new err.new) result) }
{
    match words {
        Ok(words) => call_with_monitors(alloc, &words, library, out, err),
        Err(error) => status_without_words(&error),
    }
}
