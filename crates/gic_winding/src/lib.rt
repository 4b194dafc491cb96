//! The direct-current network of a case: branches of lines and windings, and the weights of effective GIC.
#![tactic(auto)]

mod effective;
mod element;
pub mod laws;
mod list;
mod order;
mod push;
mod weights;

pub use effective::effective_weights;
pub use element::role_of;
pub use list::elements;
pub use weights::Weights;
