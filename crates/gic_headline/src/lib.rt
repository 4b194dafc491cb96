//! The headline, said once: what a call says to its user, over all words, files and streams; and the run that the program
//! makes, which says it.
#![tactic(auto)]

pub mod laws;
mod program;

pub use program::run;
