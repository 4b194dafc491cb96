//! What follows of a right certificate.
ghost use Rattle.gic_certify.specs.Follows.{RightCertificatesHold};

use gic_cert::laws::passing_law;
use gic_winding::laws::limits_law;

/// In a sound case the potential of each live node lies within the radius of its guess in a right certificate, whatever
/// solves the network.
pub fn right_certificates_law()
    ensures { RightCertificatesHold }
{
    passing_law();
    limits_law();
}
