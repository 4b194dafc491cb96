//! Unit tests: calls whose answers no run of the program shows by itself, and the program over files and streams in
//! memory.
#![tactic(auto)]

mod memory;
mod worked;

pub use memory::{Ended, run_in_memory};
pub use worked::{CASE_P, worked_loop};

#[cfg(test)]
mod corrections;
#[cfg(test)]
mod currents;
#[cfg(test)]
mod epochs;
#[cfg(test)]
mod losses;
#[cfg(test)]
mod made;
#[cfg(test)]
mod monitors;
#[cfg(test)]
mod network;
#[cfg(test)]
mod peaks;
#[cfg(test)]
mod program;
#[cfg(test)]
mod quotients;
#[cfg(test)]
mod watched;
