//! Why there is no report of a study, or not the whole of it.
use gic_base::OutOfMemory;
use gic_stand::{NetworkRefusal, ReportFault};

/// Why a report of a study is not written, or not the whole of it.
#[derive(Clone, Copy, Debug)]
pub enum StudyFault {
    /// As in every mode.
    Report(ReportFault),
    /// Out of memory for the texts of monitors.
    Memory,
}

impl From<OutOfMemory> for StudyFault {
    ghost use Rattle.std.specs.Prelude.{◌≡◌};
    ghost use Rattle.gic_study_mode.specs.declared.fault.StudyFault.TheVariants.{Memory};

    ghost from_gives = { λ _ e. e ≡ Memory };

    fn from(_e: OutOfMemory) -> StudyFault {
        StudyFault::Memory
    }
}

impl From<NetworkRefusal> for StudyFault {
    ghost use Rattle.std.specs.Prelude.{◌≡◌};
    ghost use Rattle.gic_stand.specs.declared.fault.ReportFault.TheVariants.{Refused};
    ghost use Rattle.gic_study_mode.specs.declared.fault.StudyFault.TheVariants.{Report};

    ghost from_gives = { λ r e. e ≡ Report (Refused r) };

    fn from(refusal: NetworkRefusal) -> StudyFault {
        StudyFault::Report(ReportFault::Refused(refusal))
    }
}
