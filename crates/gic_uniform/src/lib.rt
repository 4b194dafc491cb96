//! Solution of one network in uniform fields: a feasibility check, and then potentials with their enclosures.
#![tactic(auto)]

mod solve_workspace;
mod solving;
mod uniform;

pub use solve_workspace::{SolveWorkspace, solve_workspace_for};
pub use solving::{expect_solvable, settle_guesses, solve_view};
pub use uniform::uniform_volts;
