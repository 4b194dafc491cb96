//! Why a certificate is refused.
ghost use Rattle.std.specs.Prelude.{◌≡◌};
ghost use Rattle.gic_base.specs.declared.read_fault.ReadFault.TheVariants.{Refused};

use gic_base::{NodeId, ReadFault};

/// Why a text is no certificate over a network's nodes, or why a certificate does not pass. Lines count from 1.
#[derive(Clone, Copy, Debug, PartialEq, Eq)]
pub enum CertRefusal {
    /// The line is missing, is not of the form of its place, or follows the end.
    Shape { row: u32 },
    /// One of the line's numbers is not a number in its range, or the number of nodes is not the network's.
    Number { row: u32 },
    /// The name is not the next node's, or `dead` disagrees with the network.
    Node { row: u32 },
    /// The node's entry does not meet the row rule of a bound vector.
    Row { node: NodeId },
    /// The node's residual is too great.
    Residual { node: NodeId },
    /// The node's radius is less than its entry and the checked step ask for.
    Radius { node: NodeId },
}

impl From<CertRefusal> for ReadFault<CertRefusal> {
    ghost from_gives = { λ refusal e. e ≡ Refused refusal };

    fn from(refusal: CertRefusal) -> ReadFault<CertRefusal> {
        ReadFault::Refused(refusal)
    }
}
