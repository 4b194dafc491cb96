//! Preconditioned conjugate gradients in integers, with a randomised incomplete Cholesky factorisation as
//! preconditioner: corrections of guesses, and what bound vectors are proposed from. They promise bounds alone: no
//! number leaves its limits.
#![tactic(auto)]

mod dividing;
mod draws;
mod eliminating;
mod elimination;
mod factors;
mod gathering;
mod gradients;
mod graph;
mod neighbourhood;
mod numbers;
mod ordering;
mod parts;
mod preconditioning;
mod products;
mod rough_solver;
mod scaling;
mod system;
mod tying;
mod vectors;
mod wires;
mod wiring;

pub use gradients::MOST_PASSES;
pub use rough_solver::RoughSolver;
