//! Exact integer arithmetic: rounded quotients, square roots, intervals, and division of wide integers by an invariant
//! divisor.
#![tactic(auto)]

mod division;
mod divisor;
pub mod interval;
mod long;
pub mod root;

pub use divisor::Divisor;
pub use interval::Interval;
pub use root::{isqrt_ceil, isqrt_floor};

#[cfg(test)]
mod tests;
