//! The mode `robust`: thermal screening of the transformers of a case for every network whose grounding resistances lie
//! within a tolerance of the case's.
#![tactic(auto)]

pub mod laws;
mod mode;
mod rows;
mod text;
mod workspace;

pub use mode::robust;
pub use workspace::{Workspace, make_workspace};
