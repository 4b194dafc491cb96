//! The run that the program makes.
ghost use Rattle.std.specs.Prelude.{map, string_bytes, IfOk, IfErr};
ghost use Rattle.std.specs.IoError.{error_kind};
ghost use Rattle.gic_headline.specs.Program.{ProgramHeadline};
ghost use Rattle.gic_study.specs.Answers.{moment};
ghost use Rattle.gic_study.specs.ProgramEnds.{EndsAtOnce, status_without_words};

use crate::laws::program_headline_law;
use gic_base::Sink;
use gic_files::Library;
use std::alloc::Global;
use std::io;

/// Does what the words ask for, as `run` of `gic_study` does, and answers the status with which the program ends.
pub fn run<L: Library, S: Sink, E: Sink>(
    alloc: Global,
    words: io::Result<Vec<String>>,
    library: &mut L,
    out: &mut S,
    err: &mut E,
) -> u8
    // With words: the headline.
    ensures headline { IfOk words (λ words. ProgramHeadline (map string_bytes words.items) (L.content library.old)
        (moment L.fetched L.failures S.written S.faults E.written E.faults library.old out.old err.old)
        (moment L.fetched L.failures S.written S.faults E.written E.faults library.new out.new err.new) result) }
    ensures no_words { IfErr words (λ error. EndsAtOnce (status_without_words (error_kind error))
        (moment L.fetched L.failures S.written S.faults E.written E.faults library.old out.old err.old)
        (moment L.fetched L.failures S.written S.faults E.written E.faults library.new out.new err.new) result) }
{
    program_headline_law();
    gic_study::run(alloc, words, library, out, err)
}
