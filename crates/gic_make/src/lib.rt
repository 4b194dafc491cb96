//! The mode `make`: a synthetic case from a seed, proved to be accepted, solved in the field of the benchmark event, in
//! short.
#![tactic(auto)]

mod counting;
mod generator;
pub mod laws;
mod making;
mod mode;
mod site;
mod solving;
mod text;
mod workspace;

pub use making::{LEAST_SIZE, MOST_SIZE, make_case};
pub use mode::make;
pub use workspace::{Workspace, make_workspace};
