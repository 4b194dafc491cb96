//! The words, read as a request.
ghost use Rattle.std.specs.Prelude.{◌≡◌, ◌≤◌, IfOk, IfSome, IsSome, Ok, Some, map, option_map, string_bytes, unsigned_abs};
ghost use Rattle.clap.specs.Words.{rows_of, found_of};
ghost use Rattle.gic_base.specs.declared.limits.TheConstants.{MOST_FIELD};
ghost use Rattle.gic_criteria.specs.Ranges.{IsTolerance, IsWidth, IsWithinCriteria, IsWithinField, IsWithinRanges, IsWithinRobust};
ghost use Rattle.gic_words.specs.Accepted.{AreWithinRanges, HasRequiredOf, IsSize, NamesEvent};
ghost use Rattle.gic_words.specs.Command.{given};
ghost use Rattle.gic_words.specs.Within.{IsWithinOption};
ghost use Rattle.gic_words.specs.Requests.{number_given, count_given, part_given, field_given, width_given, event_given, criteria_given};
ghost use Rattle.gic_words.specs.Requests.{mode_in};
ghost use Rattle.gic_words.specs.Requests.{network_request, study_request, make_request, recheck_request, series_request, robust_request};
ghost use Rattle.gic_words.specs.Requests.{request_by, request_of, request_of_rows};
ghost use Rattle.gic_words.specs.Reads.{ReadsWords, KeepsTaken};
ghost use Rattle.gic_words.specs.Seen.{row_seen};

use crate::command::{ParseRefusal, mode_word, parse, value_of};
use crate::fault::{Usage, WordsRefusal, first_fault};
use crate::mode::{Mode, ModeRow, NetworkMode};
use crate::name::{FileName, Text};
use crate::option::Opt;
use crate::value::{read_event, read_number};
use clap::ArgMatches;
use gic_criteria::{Criteria, Event, Question, RobustCriteria, UniformField};
use std::alloc::{AllocError, Global};

/// What a mode over the network of a case is asked.
#[derive(Drop)]
pub struct NetworkRequest {
    /// The name of the case's file.
    pub case: FileName,
    /// The name of the switchings' file.
    pub switch: Option<FileName>,
    /// The field and the criteria, the usual ones where none are given.
    pub question: Question,
}

/// What `study` is asked.
#[derive(Drop)]
pub struct StudyRequest {
    /// The name of the case's file.
    pub case: FileName,
    /// The name of the storm's file.
    pub storm: FileName,
    /// The name of the switchings' file.
    pub switch: Option<FileName>,
    pub criteria: Criteria,
    /// The step that is shown in detail, from 1 to 20000.
    pub detail: Option<u32>,
}

/// What `make` is asked.
#[derive(Clone, Copy, Debug)]
pub struct MakeRequest {
    /// What the case is drawn from.
    pub seed: u32,
    /// How many sites it has, from 2 to 1000.
    pub size: u16,
}

/// What `recheck` is asked.
#[derive(Drop)]
pub struct RecheckRequest {
    /// The name of the case's file.
    pub case: FileName,
    /// The name of the switchings' file.
    pub switch: Option<FileName>,
    /// The name of the certificate's file.
    pub cert: FileName,
}

/// What `series` is asked.
#[derive(Drop)]
pub struct SeriesRequest {
    /// The name of the case's file.
    pub case: FileName,
    /// The name of the storm's file.
    pub storm: FileName,
    /// The name of the switchings' file.
    pub switch: Option<FileName>,
    /// The width of an interval, from 10 to 10000 mA.
    pub width: u32,
    /// The name of a transformer of the case.
    pub transformer: Text,
}

/// What `robust` is asked.
#[derive(Drop)]
pub struct RobustRequest {
    /// The name of the case's file.
    pub case: FileName,
    /// The name of the switchings' file.
    pub switch: Option<FileName>,
    pub criteria: RobustCriteria,
}

/// What words ask for: a mode, and what that mode is asked.
#[derive(Drop)]
pub enum Request {
    /// A report over the network of a case.
    Network(NetworkMode, NetworkRequest),
    /// A storm over the network of a case.
    Study(StudyRequest),
    /// A summary of a made case.
    Make(MakeRequest),
    /// The potentials that a certificate shows.
    Recheck(RecheckRequest),
    /// One transformer at each step of a storm.
    Series(SeriesRequest),
    /// The worst orientations in all networks whose grounds lie within a tolerance, with verdicts.
    Robust(RobustRequest),
}

/// The text of an option that is given.
fn text_given<'a>(matches: &ArgMatches<'a>, option: Opt) -> &'a str
    requires { IsSome (given (rows_of (found_of matches.now)) option) }
    ensures { given (rows_of (found_of matches.now)) option ≡ Some result.now }
{
    value_of(matches, option).unwrap()
}

/// The name of a file that is given.
fn file(alloc: Global, matches: &ArgMatches<'_>, option: Opt) -> Result<FileName, AllocError>
    requires { IsSome (given (rows_of (found_of matches.now)) option) }
    ensures { IfOk result (λ name. given (rows_of (found_of matches.now)) option ≡ Some name) }
{
    FileName::copy(alloc, text_given(matches, option))
}

/// The name of the switchings' file, where it is given.
fn switchings_file(alloc: Global, matches: &ArgMatches<'_>) -> Result<Option<FileName>, AllocError>
    ensures { IfOk result (λ name. name ≡ given (rows_of (found_of matches.now)) Opt.Switch) }
{
    match value_of(matches, Opt::Switch) {
        Some(text) => {
            let name = FileName::copy(alloc, text)?;
            Ok(Some(name))
        }
        None => Ok(None),
    }
}

/// The name of a transformer that is given.
fn transformer(alloc: Global, matches: &ArgMatches<'_>) -> Result<Text, AllocError>
    requires { IsSome (given (rows_of (found_of matches.now)) Opt.Transformer) }
    ensures { IfOk result (λ name. given (rows_of (found_of matches.now)) Opt.Transformer ≡ Some name) }
{
    Text::copy(alloc, text_given(matches, Opt::Transformer))
}

/// A number that may be given.
fn number(matches: &ArgMatches<'_>, option: Opt) -> Option<i64>
    ensures value { result ≡ number_given (rows_of (found_of matches.now)) option }
    ensures within { IfSome result (IsWithinOption option) }
{
    read_number(option, value_of(matches, option)?)
}

/// The field to the north, in mV/km.
fn north(matches: &ArgMatches<'_>) -> i32
    ensures value { result ≡ part_given (rows_of (found_of matches.now)) Opt.North }
    ensures small { unsigned_abs result ≤ MOST_FIELD }
{
    match number(matches, Opt::North) {
        Some(value) => value as i32,
        None => 0,
    }
}

/// The field to the east, in mV/km.
fn east(matches: &ArgMatches<'_>) -> i32
    ensures value { result ≡ part_given (rows_of (found_of matches.now)) Opt.East }
    ensures small { unsigned_abs result ≤ MOST_FIELD }
{
    match number(matches, Opt::East) {
        Some(value) => value as i32,
        None => 0,
    }
}

/// The field.
fn field(matches: &ArgMatches<'_>) -> UniformField
    ensures value { result ≡ field_given (rows_of (found_of matches.now)) }
    ensures within { IsWithinField result }
{
    UniformField {
        north: north(matches),
        east: east(matches),
    }
}

/// The width of an interval, in mV or mA.
fn width(matches: &ArgMatches<'_>) -> u32
    ensures value { result ≡ width_given (rows_of (found_of matches.now)) }
    ensures within { IsWidth result }
{
    match number(matches, Opt::Width) {
        Some(value) => value as u32,
        None => 100,
    }
}

/// The event that transformers are screened for.
fn event(matches: &ArgMatches<'_>) -> Event
    requires { NamesEvent (rows_of (found_of matches.now)) }
    ensures { result ≡ event_given (rows_of (found_of matches.now)) }
{
    match value_of(matches, Opt::Event) {
        Some(text) => read_event(text).unwrap(),
        None => Event::Benchmark,
    }
}

/// The criteria of a report.
fn criteria(matches: &ArgMatches<'_>) -> Criteria
    requires { NamesEvent (rows_of (found_of matches.now)) }
    ensures value { result ≡ criteria_given (rows_of (found_of matches.now)) }
    ensures within { IsWithinCriteria result }
{
    Criteria {
        width: width(matches),
        event: event(matches),
    }
}

/// The step that is shown in detail.
fn detail(matches: &ArgMatches<'_>) -> Option<u32>
    ensures { result ≡ count_given (rows_of (found_of matches.now)) Opt.Detail }
{
    match number(matches, Opt::Detail) {
        Some(value) => Some(value as u32),
        None => None,
    }
}

/// The seed of a made case, which is given.
fn seed(matches: &ArgMatches<'_>) -> u32
    requires { IsSome (number_given (rows_of (found_of matches.now)) Opt.Seed) }
    ensures { count_given (rows_of (found_of matches.now)) Opt.Seed ≡ Some result }
{
    number(matches, Opt::Seed).unwrap() as u32
}

/// The number of sites of a made case, which is given.
fn size(matches: &ArgMatches<'_>) -> u16
    requires { IsSome (number_given (rows_of (found_of matches.now)) Opt.Size) }
    ensures value { count_given (rows_of (found_of matches.now)) Opt.Size ≡ Some result }
    ensures within { IsSize result }
{
    number(matches, Opt::Size).unwrap() as u16
}

/// The tolerance of grounds, in per cent, which is given.
fn tolerance(matches: &ArgMatches<'_>) -> u8
    requires { IsSome (number_given (rows_of (found_of matches.now)) Opt.Tolerance) }
    ensures value { count_given (rows_of (found_of matches.now)) Opt.Tolerance ≡ Some result }
    ensures within { IsTolerance result }
{
    number(matches, Opt::Tolerance).unwrap() as u8
}

/// What a mode over the network of a case is asked.
fn network_request(alloc: Global, matches: &ArgMatches<'_>) -> Result<NetworkRequest, AllocError>
    requires case { IsSome (given (rows_of (found_of matches.now)) Opt.Case) }
    requires event { NamesEvent (rows_of (found_of matches.now)) }
    ensures value { IfOk result (λ r. network_request (rows_of (found_of matches.now)) ≡ Ok r) }
    ensures within { IfOk result (λ r. IsWithinRanges r.question) }
{
    Ok(NetworkRequest {
        case: file(alloc, matches, Opt::Case)?,
        switch: switchings_file(alloc, matches)?,
        question: Question {
            field: field(matches),
            criteria: criteria(matches),
        },
    })
}

/// What `study` is asked.
fn study_request(alloc: Global, matches: &ArgMatches<'_>) -> Result<StudyRequest, AllocError>
    requires case { IsSome (given (rows_of (found_of matches.now)) Opt.Case) }
    requires storm { IsSome (given (rows_of (found_of matches.now)) Opt.Storm) }
    requires event { NamesEvent (rows_of (found_of matches.now)) }
    ensures value { IfOk result (λ r. study_request (rows_of (found_of matches.now)) ≡ Ok r) }
    ensures within { IfOk result (λ r. IsWithinCriteria r.criteria) }
{
    Ok(StudyRequest {
        case: file(alloc, matches, Opt::Case)?,
        storm: file(alloc, matches, Opt::Storm)?,
        switch: switchings_file(alloc, matches)?,
        criteria: criteria(matches),
        detail: detail(matches),
    })
}

/// What `recheck` is asked.
fn recheck_request(alloc: Global, matches: &ArgMatches<'_>) -> Result<RecheckRequest, AllocError>
    requires case { IsSome (given (rows_of (found_of matches.now)) Opt.Case) }
    requires cert { IsSome (given (rows_of (found_of matches.now)) Opt.Cert) }
    ensures { IfOk result (λ r. recheck_request (rows_of (found_of matches.now)) ≡ Ok r) }
{
    Ok(RecheckRequest {
        case: file(alloc, matches, Opt::Case)?,
        switch: switchings_file(alloc, matches)?,
        cert: file(alloc, matches, Opt::Cert)?,
    })
}

/// What `series` is asked.
fn series_request(alloc: Global, matches: &ArgMatches<'_>) -> Result<SeriesRequest, AllocError>
    requires case { IsSome (given (rows_of (found_of matches.now)) Opt.Case) }
    requires storm { IsSome (given (rows_of (found_of matches.now)) Opt.Storm) }
    requires transformer { IsSome (given (rows_of (found_of matches.now)) Opt.Transformer) }
    ensures value { IfOk result (λ r. series_request (rows_of (found_of matches.now)) ≡ Ok r) }
    ensures within { IfOk result (λ r. IsWidth r.width) }
{
    Ok(SeriesRequest {
        case: file(alloc, matches, Opt::Case)?,
        storm: file(alloc, matches, Opt::Storm)?,
        switch: switchings_file(alloc, matches)?,
        width: width(matches),
        transformer: transformer(alloc, matches)?,
    })
}

/// What `robust` is asked.
fn robust_request(alloc: Global, matches: &ArgMatches<'_>) -> Result<RobustRequest, AllocError>
    requires case { IsSome (given (rows_of (found_of matches.now)) Opt.Case) }
    requires tolerance { IsSome (number_given (rows_of (found_of matches.now)) Opt.Tolerance) }
    requires event { NamesEvent (rows_of (found_of matches.now)) }
    ensures value { IfOk result (λ r. robust_request (rows_of (found_of matches.now)) ≡ Ok r) }
    ensures within { IfOk result (λ r. IsWithinRobust r.criteria) }
{
    Ok(RobustRequest {
        case: file(alloc, matches, Opt::Case)?,
        switch: switchings_file(alloc, matches)?,
        criteria: RobustCriteria {
            criteria: criteria(matches),
            tolerance: tolerance(matches),
        },
    })
}

/// What `make` is asked.
fn make_request(matches: &ArgMatches<'_>) -> MakeRequest
    requires seed { IsSome (number_given (rows_of (found_of matches.now)) Opt.Seed) }
    requires size { IsSome (number_given (rows_of (found_of matches.now)) Opt.Size) }
    ensures value { make_request (rows_of (found_of matches.now)) ≡ Ok result }
    ensures within { IsSize result.size }
{
    MakeRequest {
        seed: seed(matches),
        size: size(matches),
    }
}

/// What the matches of a mode ask for, which give all that the mode requires.
fn request_by(alloc: Global, mode: Mode, matches: &ArgMatches<'_>) -> Result<Request, AllocError>
    requires required { HasRequiredOf mode (rows_of (found_of matches.now)) }
    requires event { NamesEvent (rows_of (found_of matches.now)) }
    ensures value { IfOk result (λ r. request_by mode (rows_of (found_of matches.now)) ≡ Ok r) }
    ensures within { IfOk result AreWithinRanges }
{
    match mode {
        Mode::Network(mode) => Ok(Request::Network(mode, network_request(alloc, matches)?)),
        Mode::Study => Ok(Request::Study(study_request(alloc, matches)?)),
        Mode::Make => Ok(Request::Make(make_request(matches))),
        Mode::Recheck => Ok(Request::Recheck(recheck_request(alloc, matches)?)),
        Mode::Series => Ok(Request::Series(series_request(alloc, matches)?)),
        Mode::Robust => Ok(Request::Robust(robust_request(alloc, matches)?)),
    }
}

/// The row of the mode that the matches name.
fn mode_in(matches: &ArgMatches<'_>) -> Option<&'static ModeRow>
    ensures { option_map (λ r. row_seen r.now) result ≡ mode_in (rows_of (found_of matches.now)) }
{
    ModeRow::named(mode_word(matches)?)
}

/// What the matches ask for, or their first fault.
fn read_matches(alloc: Global, matches: &ArgMatches<'_>) -> Result<Request, WordsRefusal>
    ensures right { ReadsWords (request_of_rows (rows_of (found_of matches.now))) result }
    ensures within { IfOk result AreWithinRanges }
{
    let Some(row) = mode_in(matches) else {
        return Err(WordsRefusal::Usage(Usage::Mode));
    };
    if let Some(fault) = first_fault(row, matches) {
        return Err(WordsRefusal::Usage(fault));
    }
    let request = request_by(alloc, row.mode, matches)?;
    Ok(request)
}

/// What the words ask for, or their first fault: `Words`, then `Mode`, then those of the options in the order of their
/// table. `Memory` comes where memory runs out, and only there.
pub fn read_words(alloc: Global, words: &[String]) -> Result<Request, WordsRefusal>
    ensures right { ReadsWords (request_of (map string_bytes words.now)) result }
    ensures taken { KeepsTaken (map string_bytes words.now) result }
    // The numbers are in their ranges.
    ensures within { IfOk result AreWithinRanges }
{
    match parse(alloc, words) {
        Ok(matches) => read_matches(alloc, &matches),
        Err(ParseRefusal::NotTaken) => Err(WordsRefusal::Usage(Usage::Words)),
        Err(ParseRefusal::Memory) => Err(WordsRefusal::Memory),
    }
}
