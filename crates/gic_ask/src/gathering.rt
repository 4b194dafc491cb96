//! All that a request names, one file after another.
ghost use Rattle.std.specs.Prelude.{◌≡◌, ◌++◌, ℕ, List, IfOk, Some};
ghost use Rattle.std.specs.declared.option.Option.{Option};
ghost use Rattle.gic_files.specs.Files.{fetches};
ghost use Rattle.gic_inputs.specs.Inputs.{IsStormOf};
ghost use Rattle.gic_criteria.specs.Ranges.{IsWidth, IsWithinCriteria, IsWithinRanges};
ghost use Rattle.gic_words.specs.Accepted.{AreWithinRanges};
ghost use Rattle.gic_words.specs.declared.request.Request.TheVariants as requests;
ghost use Rattle.gic_ask.specs.declared.fault.File.TheVariants as file;
ghost use Rattle.gic_ask.specs.Contents.{file_named, files_named, names_in, of_case};
ghost use Rattle.gic_ask.specs.Outcome.{reading_network, reading_over, asking};
ghost use Rattle.gic_ask.specs.Steps.{Reads};
ghost use Rattle.gic_ask.specs.Within.{IsAskedWithinRanges};

use crate::fault::InputFault;
use crate::finding::transformer;
use crate::reading::{case, certificate, storm, switchings};
use crate::request::{Asked, NetworkAsked, RecheckAsked, SeriesAsked, StudyAsked};
use gic_case::Case;
use gic_criteria::Criteria;
use gic_files::Library;
use gic_inputs::{Inputs, StormInputs};
use gic_words::{
    FileName, NetworkMode, NetworkRequest, RecheckRequest, Request, SeriesRequest, StudyRequest,
};
use std::alloc::Global;

/// A case, and then its switchings, where they are named. A certificate may be named as well.
fn network<L: Library, Q: Copy>(
    alloc: Global,
    library: &mut L,
    name: &FileName,
    switch: &Option<FileName>,
    question: Q,
) -> Result<Inputs<Q>, InputFault>
    ensures content { L.content library.new ≡ L.content library.old }
    ensures reads { (cert : Option (List ℕ)) → Reads (L.content library.old) (record (of_case name.now switch.now) { cert = cert })
        (file_named file.Case (Some name.now) ++ file_named file.Switch switch.now) (reading_network switch.now question)
        (fetches L.fetched L.failures library.old) (fetches L.fetched L.failures library.new) result }
    ensures question { IfOk result (λ inputs. inputs.question ≡ question) }
{
    let case = case(alloc, library, name)?;
    let switchings = switchings(alloc, library, switch, &case)?;
    Ok(Inputs {
        case,
        switchings,
        question,
    })
}

/// A storm over a case that is read, and then the switchings, where they are named.
fn over_case<L: Library>(
    alloc: Global,
    library: &mut L,
    case: Case,
    name: &FileName,
    switch: &Option<FileName>,
    question: Criteria,
) -> Result<StormInputs, InputFault>
    ensures content { L.content library.new ≡ L.content library.old }
    ensures reads { (of : List ℕ) → Reads (L.content library.old) (record (of_case of switch.now) { storm = Some name.now })
        (file_named file.Storm (Some name.now) ++ file_named file.Switch switch.now) (reading_over switch.now question case)
        (fetches L.fetched L.failures library.old) (fetches L.fetched L.failures library.new) result }
    ensures given { IfOk result (λ inputs. (inputs.question ≡ question) × (inputs.case ≡ case)) }
    ensures storm { IfOk result IsStormOf }
{
    let storm = storm(alloc, library, name, &case)?;
    let switchings = switchings(alloc, library, switch, &case)?;
    Ok(StormInputs {
        case,
        switchings,
        storm,
        question,
    })
}

/// What a mode over the network of a case asks for.
fn over_network<L: Library>(
    alloc: Global,
    library: &mut L,
    mode: NetworkMode,
    request: &NetworkRequest,
) -> Result<Asked, InputFault>
    ensures reads { let r = request.now in
        Reads (L.content library.old) (of_case r.case r.switch) (file_named file.Case (Some r.case) ++ file_named file.Switch r.switch)
        (asking (requests.Network mode r)) (fetches L.fetched L.failures library.old) (fetches L.fetched L.failures library.new) result }
    ensures ranges { IsWithinRanges request.now.question → IfOk result IsAskedWithinRanges }
{
    let case = case(alloc, library, &request.case)?;
    let switchings = switchings(alloc, library, &request.switch, &case)?;
    Ok(Asked::Network(
        mode,
        NetworkAsked {
            case,
            switchings,
            question: request.question,
        },
    ))
}

/// What a study asks for.
fn study<L: Library>(
    alloc: Global,
    library: &mut L,
    request: &StudyRequest,
) -> Result<Asked, InputFault>
    ensures reads { let r = request.now in
        Reads (L.content library.old) (record (of_case r.case r.switch) { storm = Some r.storm })
        (file_named file.Case (Some r.case) ++ (file_named file.Storm (Some r.storm) ++ file_named file.Switch r.switch))
        (asking (requests.Study r)) (fetches L.fetched L.failures library.old) (fetches L.fetched L.failures library.new) result }
    ensures ranges { IsWithinCriteria request.now.criteria → IfOk result IsAskedWithinRanges }
{
    let case = case(alloc, library, &request.case)?;
    let inputs = over_case(
        alloc,
        library,
        case,
        &request.storm,
        &request.switch,
        request.criteria,
    )?;
    Ok(Asked::Study(StudyAsked {
        inputs,
        detail: request.detail,
    }))
}

/// What the course of one transformer asks for. It is looked for as soon as the case is read.
fn series<L: Library>(
    alloc: Global,
    library: &mut L,
    request: &SeriesRequest,
) -> Result<Asked, InputFault>
    ensures reads { let r = request.now in
        Reads (L.content library.old) (record (of_case r.case r.switch) { storm = Some r.storm })
        (file_named file.Case (Some r.case) ++ (file_named file.Storm (Some r.storm) ++ file_named file.Switch r.switch))
        (asking (requests.Series r)) (fetches L.fetched L.failures library.old) (fetches L.fetched L.failures library.new) result }
    ensures ranges { IsWidth request.now.width → IfOk result IsAskedWithinRanges }
{
    let case = case(alloc, library, &request.case)?;
    let transformer = match transformer(&request.transformer, &case) {
        Ok(place) => place,
        Err(refusal) => return Err(InputFault::Refused(refusal)),
    };
    let criteria = Criteria {
        width: request.width,
        ..Criteria::usual()
    };
    let inputs = over_case(
        alloc,
        library,
        case,
        &request.storm,
        &request.switch,
        criteria,
    )?;
    Ok(Asked::Series(SeriesAsked {
        inputs,
        transformer,
    }))
}

/// What the check of a certificate asks for.
fn recheck<L: Library>(
    alloc: Global,
    library: &mut L,
    request: &RecheckRequest,
) -> Result<Asked, InputFault>
    ensures reads { let r = request.now in
        Reads (L.content library.old) (record (of_case r.case r.switch) { cert = Some r.cert })
        ((file_named file.Case (Some r.case) ++ file_named file.Switch r.switch) ++ file_named file.Certificate (Some r.cert))
        (asking (requests.Recheck r)) (fetches L.fetched L.failures library.old) (fetches L.fetched L.failures library.new) result }
    ensures ranges { IfOk result IsAskedWithinRanges }
{
    let inputs = network(alloc, library, &request.case, &request.switch, ())?;
    let certificate = certificate(alloc, library, &request.cert)?;
    Ok(Asked::Recheck(RecheckAsked {
        inputs,
        certificate,
    }))
}

/// Fetches and reads all that a request names, and answers what it asks for.
pub(crate) fn gather<L: Library>(
    alloc: Global,
    library: &mut L,
    request: &Request,
) -> Result<Asked, InputFault>
    ensures reads { Reads (L.content library.old) (names_in request.now) (files_named (names_in request.now)) (asking request.now)
        (fetches L.fetched L.failures library.old) (fetches L.fetched L.failures library.new) result }
    ensures ranges { AreWithinRanges request.now → IfOk result IsAskedWithinRanges }
{
    match request {
        Request::Network(mode, r) => over_network(alloc, library, *mode, r),
        Request::Study(r) => study(alloc, library, r),
        Request::Make(r) => Ok(Asked::Make(*r)),
        Request::Recheck(r) => recheck(alloc, library, r),
        Request::Series(r) => series(alloc, library, r),
        Request::Robust(r) => {
            let inputs = network(alloc, library, &r.case, &r.switch, r.criteria)?;
            Ok(Asked::Robust(inputs))
        }
    }
}
