//! The parser of switchings: timed switching operations, or the first rule that is broken; and the epochs of a storm
//! under them, maximal runs of steps with one switching state.
#![tactic(auto)]

mod action;
mod epoch;
mod item;
mod names;
mod pass;
mod refusal;
mod switchings;

pub use epoch::{Epoch, epochs, time_of_step};
pub use refusal::SwitchRefusal;
pub use switchings::{Switchings, read_switchings};
