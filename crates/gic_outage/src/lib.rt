//! The mode `outage`: N-1 screening of each line and transformer, opened in turn and restored, for the worst
//! orientation.
#![tactic(auto)]

mod counting;
pub mod laws;
mod mode;
mod outcome;
mod planning;
mod raising;
mod removing;
mod run;
mod taking;
mod text;
mod workspace;

pub use mode::outage;
pub use workspace::{Workspace, make_workspace};
