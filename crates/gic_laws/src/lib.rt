//! Theorems over the modes: the worst orientation of a uniform field, and the texts of monitors and exact currents.
//! Nothing is computed here.
#![tactic(auto)]

pub mod laws;
