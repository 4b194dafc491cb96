//! Theorems over the definitions, each the contract of a function that does nothing.
ghost use Rattle.gic_recheck.specs.Determines.{TextDeterminesPotentials, AcceptedIsNotRefused, PassingTextIsAccepted};
ghost use Rattle.gic_recheck.specs.Follows.{AcceptedIntervalsHold, AcceptedCertificatesAreSolved};

use gic_cert::laws::{passing_law, text_law};
use gic_claims::laws::bound_networks_are_solved_law;
use gic_winding::laws::limits_law;

/// Texts on one sound case that are equal show the same field and the same intervals, and so the same live nodes.
pub fn text_determines_potentials_law()
    ensures { TextDeterminesPotentials }
{}

/// No certificate is both accepted and refused.
pub fn accepted_is_not_refused_law()
    ensures { AcceptedIsNotRefused }
{}

/// The text of a certificate that passes is accepted. So what `certify` writes is accepted, over the same case and the same
/// switchings.
pub fn passing_text_is_accepted_law()
    ensures { PassingTextIsAccepted }
{
    text_law();
}

/// In a sound case each interval of a right report holds the potential of its node in every solution, whoever made the
/// certificate, and there is a solution.
pub fn accepted_certificates_law()
    ensures holds { AcceptedIntervalsHold }
    ensures solved { AcceptedCertificatesAreSolved }
{
    passing_law();
    bound_networks_are_solved_law();
    limits_law();
}
