//! Criteria: what is asked of a network, verdicts of GIC against the thermal threshold of an event, and the worst
//! orientation of a uniform field.
#![tactic(auto)]

mod asked;
mod criterion;
mod event;
mod judge;
pub mod laws;
mod orientation;

pub use asked::{Criteria, Question, RobustCriteria, UniformField};
pub use criterion::Verdict;
pub use event::Event;
pub use judge::verdict;
pub use orientation::worst;
