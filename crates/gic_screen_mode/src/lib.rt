//! The mode `screen`: thermal screening of the transformers of a case for the worst orientation of an event's field.
#![tactic(auto)]

pub mod laws;
mod mode;
mod text;
mod workspace;

pub use mode::screen;
pub use workspace::{Workspace, make_workspace};
