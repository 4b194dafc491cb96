//! The files that are named, each fetched and then read.
ghost use Rattle.std.specs.Prelude.{◌≡◌, length, IfOk};
ghost use Rattle.gic_files.specs.Files.{fetches};
ghost use Rattle.gic_ask.specs.declared.fault.File.TheVariants as file;
ghost use Rattle.gic_ask.specs.Contents.{Names, file_named};
ghost use Rattle.gic_ask.specs.Outcome.{handing, reading_case, reading_storm, reading_switchings, reading_certificate};
ghost use Rattle.gic_ask.specs.Steps.{Gives, Reads};

use crate::bytes::FileBytes;
use crate::fault::{File, InputFault, InputRefusal};
use gic_base::ReadFault;
use gic_case::Case;
use gic_case_reader::read_case;
use gic_files::{FetchRefusal, Library, read_whole};
use gic_storm::{Storm, read_storm};
use gic_switch::{Switchings, read_switchings};
use gic_words::FileName;
use std::alloc::Global;

/// Fetches a file.
fn fetch_file<L: Library>(
    alloc: Global,
    library: &mut L,
    name: &FileName,
    file: File,
) -> Result<FileBytes, InputFault>
    ensures content { L.content library.new ≡ L.content library.old }
    ensures gives { Gives (L.content library.old) name.now file (handing file)
        (fetches L.fetched L.failures library.old) (fetches L.fetched L.failures library.new) result }
{
    match read_whole(alloc, library, name.as_str()) {
        Ok(bytes) => Ok(FileBytes::new(bytes)),
        Err(FetchRefusal::Failed) => Err(InputFault::CannotRead(file)),
        Err(FetchRefusal::TooLong) => Err(InputFault::Refused(InputRefusal::TooLong(file))),
        Err(FetchRefusal::Memory) => Err(InputFault::Memory),
    }
}

/// Fetches and reads the case of this name.
pub(crate) fn case<L: Library>(
    alloc: Global,
    library: &mut L,
    name: &FileName,
) -> Result<Case, InputFault>
    ensures content { L.content library.new ≡ L.content library.old }
    ensures gives { Gives (L.content library.old) name.now file.Case reading_case
        (fetches L.fetched L.failures library.old) (fetches L.fetched L.failures library.new) result }
{
    let bytes = fetch_file(alloc, library, name, File::Case)?;
    match read_case(alloc, bytes.as_slice()) {
        Ok(case) => Ok(case),
        Err(ReadFault::Memory) => Err(InputFault::Memory),
        Err(ReadFault::Refused(refusal)) => Err(InputFault::Refused(InputRefusal::Case(refusal))),
    }
}

/// Fetches and reads the storm of this name over a case.
pub(crate) fn storm<L: Library>(
    alloc: Global,
    library: &mut L,
    name: &FileName,
    case: &Case,
) -> Result<Storm, InputFault>
    ensures content { L.content library.new ≡ L.content library.old }
    ensures gives { Gives (L.content library.old) name.now file.Storm (reading_storm case.now)
        (fetches L.fetched L.failures library.old) (fetches L.fetched L.failures library.new) result }
    ensures zones { IfOk result (λ storm. storm.zones ≡ length case.now.zones) }
{
    let bytes = fetch_file(alloc, library, name, File::Storm)?;
    match read_storm(alloc, bytes.as_slice(), case) {
        Ok(storm) => Ok(storm),
        Err(ReadFault::Memory) => Err(InputFault::Memory),
        Err(ReadFault::Refused(refusal)) => Err(InputFault::Refused(InputRefusal::Storm(refusal))),
    }
}

/// Fetches and reads the switchings of a case, where they are named. Whatever other files are named.
pub(crate) fn switchings<L: Library>(
    alloc: Global,
    library: &mut L,
    switch: &Option<FileName>,
    case: &Case,
) -> Result<Option<Switchings>, InputFault>
    ensures content { L.content library.new ≡ L.content library.old }
    ensures reads { (others : Names) → Reads (L.content library.old) (record others { switch = switch.now })
        (file_named file.Switch switch.now) (reading_switchings switch.now case.now)
        (fetches L.fetched L.failures library.old) (fetches L.fetched L.failures library.new) result }
{
    let Some(name) = switch else {
        return Ok(None);
    };
    let bytes = fetch_file(alloc, library, name, File::Switch)?;
    match read_switchings(alloc, bytes.as_slice(), case) {
        Ok(switchings) => Ok(Some(switchings)),
        Err(ReadFault::Memory) => Err(InputFault::Memory),
        Err(ReadFault::Refused(refusal)) => Err(InputFault::Refused(InputRefusal::Switch(refusal))),
    }
}

/// Fetches the certificate of this name.
pub(crate) fn certificate<L: Library>(
    alloc: Global,
    library: &mut L,
    name: &FileName,
) -> Result<FileBytes, InputFault>
    ensures content { L.content library.new ≡ L.content library.old }
    ensures gives { Gives (L.content library.old) name.now file.Certificate reading_certificate
        (fetches L.fetched L.failures library.old) (fetches L.fetched L.failures library.new) result }
{
    fetch_file(alloc, library, name, File::Certificate)
}
