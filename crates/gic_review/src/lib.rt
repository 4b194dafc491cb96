//! The mode `review`: plausibility checks of a case: missing grounds, separate parts, loops of spans that don't close,
//! unusual values.
#![tactic(auto)]

mod findings;
pub mod laws;
mod mode;
mod text;
mod words;
mod workspace;

pub use mode::review;
pub use workspace::{Workspace, make_workspace};
