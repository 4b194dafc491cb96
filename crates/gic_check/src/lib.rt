//! The mode `check`: the live nodes of a case, where each of them is earthed.
#![tactic(auto)]

pub mod laws;
mod live;
mod mode;
mod text;
mod workspace;

pub use mode::check;
pub use workspace::{Workspace, make_workspace};
