//! What is asked of a network.
ghost use Rattle.std.specs.Prelude.{◌≡◌};
ghost use Rattle.gic_criteria.specs.Ranges.{IsWithinCriteria};
ghost use Rattle.gic_criteria.specs.Questions.{usual_criteria};

use crate::event::Event;

/// A uniform field, in mV/km.
#[derive(Clone, Copy, Debug)]
pub struct UniformField {
    /// To the north, from -20000 to 20000.
    pub north: i32,
    /// To the east, from -20000 to 20000.
    pub east: i32,
}

/// What the intervals and the verdicts of a report go by.
#[derive(Clone, Copy, Debug)]
pub struct Criteria {
    /// No interval is wider, in mV or mA: from 10 to 10000.
    pub width: u32,
    /// The event that transformers are screened for.
    pub event: Event,
}

impl Criteria {
    /// Those of a report for which none are given: 100 mV or mA, and the benchmark event.
    pub fn usual() -> Criteria
        ensures value { result ≡ usual_criteria }
        ensures within { IsWithinCriteria result }
    {
        Criteria {
            width: 100,
            event: Event::Benchmark,
        }
    }
}

/// What is asked of a network in one field.
#[derive(Clone, Copy, Debug)]
pub struct Question {
    pub field: UniformField,
    pub criteria: Criteria,
}

/// What a report goes by that holds of all networks whose grounds lie within a tolerance.
#[derive(Clone, Copy, Debug)]
pub struct RobustCriteria {
    pub criteria: Criteria,
    /// How far each ground may lie from that of the case, in per cent, from 1 to 90, but where it has a tolerance of its own.
    pub tolerance: u8,
}
