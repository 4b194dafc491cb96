//! The mode `certify`: writes a certificate of the potentials in one uniform field.
#![tactic(auto)]

pub mod laws;
mod mode;
mod workspace;

pub use mode::certify;
pub use workspace::{Workspace, make_workspace};
