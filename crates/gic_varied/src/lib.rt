//! Networks whose grounding resistances lie within ranges: theorems on what holds of all of them.
#![tactic(auto)]

pub mod laws;
