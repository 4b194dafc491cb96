//! The events that transformers are screened for.

/// An event: the peak of its field, and the current from which a transformer is assessed.
#[derive(Clone, Copy, PartialEq, Eq, Debug)]
pub enum Event {
    /// The benchmark event of NERC TPL-007.
    Benchmark,
    /// This project's own, set after the supplemental event of that standard.
    Supplemental,
}

impl Event {
    ghost use Rattle.std.specs.Prelude.{◌≡◌};
    ghost use Rattle.gic_criteria.specs.Event.{threshold_of, field_of};

    /// The threshold in milliamperes per phase.
    pub fn threshold(self) -> u32
        ensures { result ≡ threshold_of self }
    {
        match self {
            Event::Benchmark => 75_000,
            Event::Supplemental => 85_000,
        }
    }

    /// The peak of the field in mV/km.
    pub fn field(self) -> i32
        ensures { result ≡ field_of self }
    {
        match self {
            Event::Benchmark => 8_000,
            Event::Supplemental => 12_000,
        }
    }
}
