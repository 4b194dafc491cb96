//! Branch currents and effective GIC of transformers, as guaranteed enclosures.
#![tactic(auto)]

mod current;
mod effective;
pub mod laws;
mod nano;
mod ohm;
mod potential;
mod view;
mod winding;
mod winding_currents;

pub use current::{current_na, milli, tight_current_na};
pub use effective::{effective_na, signed_effective};
pub use nano::effective_na_interval;
pub use potential::{potential_mv, potential_nv};
pub use view::{effective_interval, fill_view, view_of_case};
pub use winding_currents::WindingCurrents;
