//! The network under switching: which branches are in service, the incidence of each node, and graph search for live
//! nodes without a path to earth.
#![tactic(auto)]

mod conductor;
mod item_index;
pub mod laws;
mod net;
mod row;
mod rows;
mod scratch;
mod spread;
mod unearthed;

pub use net::Net;
pub use scratch::Scratch;
pub use unearthed::{Unearthed, earthed};
