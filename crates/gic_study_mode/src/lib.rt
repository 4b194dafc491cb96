//! The mode `study`: peak envelopes over a storm, one step in detail, and the texts of monitors.
#![tactic(auto)]

mod asked;
mod fault;
pub mod laws;
mod mode;
mod roster;
mod steps;
mod texts;
mod views;
mod workspace;
mod writing;

pub use fault::StudyFault;
pub use mode::study;
pub use workspace::{StepsWorkspace, Workspace, make_workspace};
