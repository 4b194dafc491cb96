//! Why a certificate is refused, and why there is no report of it.
use gic_base::{Name, OutOfMemory};
use gic_stand::ReportFault;
use std::alloc::AllocError;

/// Why a text is no certificate of a case, by the number of its line, or why the certificate doesn't pass, by the first node
/// that breaks the rule.
#[derive(Clone, Copy, Debug)]
pub enum CertificateRefusal {
    /// The line is missing, is not of the form of its place, or follows the end.
    Shape { row: u32 },
    /// One of the line's numbers is not a number in its range, or the number of nodes is not the network's.
    Number { row: u32 },
    /// The name is not the next node's, or `dead` disagrees with the network.
    Node { row: u32 },
    /// The entry doesn't meet the row rule of a bound vector.
    Row { node: Name },
    /// The residual of the guesses is too great to be checked.
    Residual { node: Name },
    /// The radius is too small.
    Radius { node: Name },
}

/// Why no workspace is made for a certificate.
#[derive(Clone, Copy, Debug)]
pub enum WorkspaceFault {
    /// The text is no certificate of the case.
    Refused(CertificateRefusal),
    /// Out of memory.
    Memory,
}

impl From<AllocError> for WorkspaceFault {
    ghost use Rattle.std.specs.Prelude.{◌≡◌};
    ghost use Rattle.gic_recheck.specs.declared.fault.WorkspaceFault.TheVariants.{Memory};

    ghost from_gives = { λ _ e. e ≡ Memory };

    fn from(_e: AllocError) -> WorkspaceFault {
        WorkspaceFault::Memory
    }
}

impl From<OutOfMemory> for WorkspaceFault {
    ghost use Rattle.std.specs.Prelude.{◌≡◌};
    ghost use Rattle.gic_recheck.specs.declared.fault.WorkspaceFault.TheVariants.{Memory};

    ghost from_gives = { λ _ e. e ≡ Memory };

    fn from(_e: OutOfMemory) -> WorkspaceFault {
        WorkspaceFault::Memory
    }
}

/// Why a report of a certificate is not written, or not the whole of it.
#[derive(Clone, Copy, Debug)]
pub enum RecheckFault {
    /// The certificate is refused.
    Refused(CertificateRefusal),
    /// As in every mode: a write failed.
    Report(ReportFault),
}
