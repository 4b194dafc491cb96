//! End-to-end theorems: solutions exist for accepted cases, and for every network that has a bound vector. Nothing is
//! computed here.
#![tactic(auto)]

pub mod laws;
