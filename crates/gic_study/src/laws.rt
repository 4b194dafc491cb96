//! What holds of what is asked for, of how a call ended and of right texts.
ghost use Rattle.gic_study.specs.Laws.{AskedCasesAreSound, AskedStormsHaveSteps, RefusalsAreAnswered, LackedFilesAreOutOfMemory};
ghost use Rattle.gic_study.specs.Laws.{UnmetNeedsAreAnswered, RefusedCertificatesAreAnswered, AcceptedIsReported, StatusesSay};
ghost use Rattle.gic_study.specs.Laws.{TextsTellModes, CertifiedIsAccepted};

use gic_ask::laws::answers_of_files_law;
use gic_case_reader::laws::accepted_law;
use gic_make::laws::made_cases_law;
use gic_recheck::laws::{accepted_is_not_refused_law, passing_text_is_accepted_law};
use gic_study_mode::laws::accepted_storms_have_steps_law;
use gic_words::laws::made_in_range_law;

/// Whatever is asked for, its case is sound.
pub fn asked_cases_are_sound_law()
    ensures { AskedCasesAreSound }
{
    made_in_range_law();
    accepted_law();
    made_cases_law();
}

/// Whatever is asked for over a storm, that storm has a step.
pub fn asked_storms_have_steps_law()
    ensures { AskedStormsHaveSteps }
{
    accepted_storms_have_steps_law();
}

/// Where no fetch of a named file failed, a refusal by the words and the files is answered, except out of memory.
pub fn refusals_are_answered_law()
    ensures { RefusalsAreAnswered }
{
    answers_of_files_law();
}

/// A file that isn't there, of which no fetch failed, is told as out of memory.
pub fn lacked_files_law()
    ensures { LackedFilesAreOutOfMemory }
{
    answers_of_files_law();
}

/// Where no fetch of a named file failed, a network that doesn't meet the need of its mode is refused, out of memory
/// aside.
pub fn unmet_needs_are_answered_law()
    ensures { UnmetNeedsAreAnswered }
{
    answers_of_files_law();
}

/// Where no fetch of a named file failed, a certificate that is refused is told as refused, except out of memory.
pub fn refused_certificates_are_answered_law()
    ensures { RefusedCertificatesAreAnswered }
{
    answers_of_files_law();
    accepted_is_not_refused_law();
}

/// Where no fetch of a named file and no write failed, what is accepted is reported if its need is met and a
/// certificate that it is given is accepted too, except out of memory.
pub fn accepted_is_reported_law()
    ensures { AcceptedIsReported }
{
    answers_of_files_law();
    accepted_is_not_refused_law();
}

/// What each status says.
pub fn statuses_say_law()
    ensures { StatusesSay }
{}

/// Reports of two modes are never equal.
pub fn texts_tell_modes_law()
    ensures { TextsTellModes }
{}

/// What `certify` writes, `recheck` accepts, over the same case and the same switchings.
pub fn certified_is_accepted_law()
    ensures { CertifiedIsAccepted }
{
    passing_text_is_accepted_law();
}
