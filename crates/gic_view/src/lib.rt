//! What is shown of one step: potentials, branch currents and effective GIC, as intervals; and their peak envelopes
//! over steps.
#![tactic(auto)]

mod greater;
mod keeping;
mod kept;
pub mod laws;
mod peaks;
mod step_view;

pub use greater::peak;
pub use peaks::Peaks;
pub use step_view::StepView;
