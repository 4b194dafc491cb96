//! A network with its grounds at the least and at the greatest resistances of their ranges and at corners of these, and the
//! interval that holds a weighted current whatever resistances of their ranges the grounds have.
#![tactic(auto)]

mod adjoint;
mod at_corner;
mod corner;
mod corner_net;
mod current;
mod direction;
mod effect;
mod extreme;
mod grounding;
mod lift;
mod nets;
mod node_intervals;
mod own;
mod range;
mod reference;
mod side;
mod stray;
mod sum;
mod unit;
mod varied;
mod varied_currents;
mod weights;
mod workspace;

pub use at_corner::CornerWorkspace;
pub use corner::Corner;
pub use direction::Direction;
pub use extreme::Extreme;
pub use grounding::{ground_nets, grounds_at};
pub use lift::fill_lifts;
pub use nets::GroundNets;
pub use node_intervals::NodeIntervals;
pub use own::OwnCurrents;
pub use range::{least_of, most_of};
pub use reference::Reference;
pub use side::Side;
pub use sum::enclosure;
pub use unit::{ADJOINT_UNIT, MOST_UNITS, potential_unit};
pub use varied::VariedPotentials;
pub use varied_currents::VariedCurrents;
pub use weights::{fill_weights, stray_unit};
pub use workspace::{VariedWorkspace, make_varied_workspace};
