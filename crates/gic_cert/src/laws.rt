//! Theorems over the definitions, each the contract of a function that does nothing: a function whose proof rests on a
//! theorem calls it.
ghost use Rattle.gic_cert.specs.Laws.{PassingHoldsPotentials, SettledStepsAreSmall, SettledResidualsAreSmall, LiveGuessesAreEnough};
ghost use Rattle.gic_cert.specs.TextLaws.{ReadingGivesBack, NumbersAtLiveNodes, TextDeterminesCertificate};

use gic_model::laws::{certificate_law, diagonal_law, rounded_residual_law, settled_law};

/// Where a certificate passes, each live node's potential lies within the radius of the guess in every solution,
/// whoever made the certificate.
pub fn passing_law()
    ensures { PassingHoldsPotentials }
{
    certificate_law();
    rounded_residual_law();
    settled_law();
}

/// Settled guesses have a small checked step and small residuals, whatever the guesses at dead nodes are.
pub fn settled_step_law()
    ensures step { SettledStepsAreSmall }
    ensures residuals { SettledResidualsAreSmall }
    ensures live { LiveGuessesAreEnough }
{
    diagonal_law();
    rounded_residual_law();
}

/// Reading the text of a certificate gives the certificate, a text tells which certificate it is of, and what is read
/// over a network's nodes can be checked.
pub fn text_law()
    ensures back { ReadingGivesBack }
    ensures determined { TextDeterminesCertificate }
    ensures placed { NumbersAtLiveNodes }
{}
