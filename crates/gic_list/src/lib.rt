//! The mode `list`: the branches of the direct-current network of a case.
#![tactic(auto)]

mod mode;
mod names;
mod text;
mod workspace;

pub use mode::list;
pub use workspace::{Workspace, make_workspace};
