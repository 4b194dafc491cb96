//! Decimal numbers in text, and lines built word by word.
#![tactic(auto)]

mod decimal;
mod line;
#[cfg(test)]
mod tests;

pub use decimal::{read_decimal, read_wide};
pub use line::LineBuilder;
