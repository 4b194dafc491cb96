//! Bound vectors: positive vectors that certify the conductance matrix as an M-matrix and bound the error of guesses by
//! their residuals; and the least of them.
#![tactic(auto)]

mod cap;
mod estimate;
pub mod laws;
mod lifting;
mod raising;
mod row;
mod starting;
mod vector;
mod workspace;

pub use raising::{Unresolved, bound, bound_from, some_bound};
pub use row::meets_row_rule;
pub use vector::BoundVector;
pub use workspace::Workspace;
