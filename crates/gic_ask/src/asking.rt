//! The words, and then the files.
ghost use Rattle.std.specs.Prelude.{IfOk, map, string_bytes};
ghost use Rattle.gic_files.specs.Files.{fetches};
ghost use Rattle.gic_ask.specs.Asks.{Asks};
ghost use Rattle.gic_ask.specs.Within.{IsAskedWithinRanges};

use crate::fault::{InputFault, InputRefusal};
use crate::gathering::gather;
use crate::request::Asked;
use gic_files::Library;
use gic_words::{WordsRefusal, read_words};
use std::alloc::Global;

/// Reads the words, and then fetches and reads the files that they name, one after another: the case, the storm, the
/// switchings, and a certificate, which is fetched alone. The first fault is the answer. Out of memory may come in
/// place of any answer.
pub fn ask<L: Library>(
    alloc: Global,
    words: &[String],
    library: &mut L,
) -> Result<Asked, InputFault>
    ensures asks { Asks (map string_bytes words.now) (L.content library.old)
        (fetches L.fetched L.failures library.old) (fetches L.fetched L.failures library.new) result }
    ensures ranges { IfOk result IsAskedWithinRanges }
{
    let request = match read_words(alloc, words) {
        Ok(request) => request,
        Err(WordsRefusal::Usage(usage)) => {
            return Err(InputFault::Refused(InputRefusal::Usage(usage)));
        }
        Err(WordsRefusal::Memory) => return Err(InputFault::Memory),
    };
    gather(alloc, library, &request)
}
