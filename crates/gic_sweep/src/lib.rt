//! Jacobi iteration with certified residuals: potentials in fixed point, sweeps, and how far Kirchhoff's law is missed.
#![tactic(auto)]

mod current;
mod driving;
mod fall;
mod guesses;
mod improving;
mod node_sums;
mod passing;
mod reaching;
mod residuals;
mod settling;
mod solver;
mod steps;
mod sums;
mod sweeping;
mod workspace;

pub use driving::{GRAINS, drive, in_grains, micro_paths};
pub use node_sums::{conductance, rounded_residual};
pub use residuals::Residuals;
pub use solver::{
    Improvement, MOST_ROUNDS, Solver, find_residuals, improve, is_settled, reach, residual, sweep,
};
pub use steps::Steps;
