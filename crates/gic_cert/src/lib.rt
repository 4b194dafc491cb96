//! Certificates of node potentials: an independent check of a solution without solving the network.
#![tactic(auto)]

mod cert;
mod cert_workspace;
mod checking;
mod cutting;
mod from_rows;
pub mod laws;
pub mod limits;
mod lines;
mod making;
mod reader;
mod reading;
mod refusal;
mod rows;
mod step;
mod writing;

pub use cert::Cert;
pub use cert_workspace::{CertWorkspace, make_cert_workspace};
pub use checking::check;
pub use reader::read_cert;
pub use refusal::CertRefusal;
pub use writing::write_cert;
