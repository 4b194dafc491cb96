//! The input data of a mode: accepted files, and what is asked of the network.
#![tactic(auto)]

mod inputs;

pub use inputs::{Inputs, StormInputs};
