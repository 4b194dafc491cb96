//! The direct-current network model: branches, nodes, and solutions by Ohm's and Kirchhoff's laws.
#![tactic(auto)]

pub mod elements;
pub mod guess;
pub mod laws;
pub mod parts;
pub mod volts;
pub mod wide_volts;

pub use elements::Elements;
pub use guess::{MOST_GUESS, cut_guess};
pub use parts::{Element, End, Item, Role, Switching};
pub use volts::Volts;
pub use wide_volts::WideVolts;
