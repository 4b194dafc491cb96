//! The mode `recheck`: verifies a certificate of potentials, whoever made it.
#![tactic(auto)]

mod accepting;
mod fault;
pub mod laws;
mod mode;
mod potentials;
mod text;
mod workspace;

pub use fault::{CertificateRefusal, RecheckFault, WorkspaceFault};
pub use mode::recheck;
pub use workspace::{Workspace, make_workspace};
