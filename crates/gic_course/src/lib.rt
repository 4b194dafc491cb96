//! The time series of a storm over a network with switchings: feasibility and the view of each step.
#![tactic(auto)]

mod course;
mod epochs;
mod preparing;
mod ready;
mod showing;
mod single;
mod switched;
mod walking;
mod workspace;

pub use course::Course;
