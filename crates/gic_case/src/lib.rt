//! The data model of a case: zones with the scaling of their geoelectric field (alpha, beta), substations, buses, lines
//! and transformers, validated.
#![tactic(auto)]

mod alpha;
mod case;
mod case_list;
mod course;
mod item;
mod kind;
mod network;
mod neutral;
mod node;
mod part;
mod parts;
mod scaling;
mod winding;
mod windings;
mod zone;

pub use case::Case;
pub use case_list::CaseList;
pub use course::Course;
pub use item::{Bus, Line, Neutral, Substation, Transformer};
pub use kind::{Kind, Third};
pub use network::CaseLists;
pub use neutral::{grid_of, ground_grid, neutrals, substation_at};
pub use node::{NodeNames, node_count, node_name};
pub use part::LinePart;
pub use parts::LineParts;
pub use scaling::Scaling;
pub use winding::{Terminal, Winding, WindingEnd, WindingRole};
pub use windings::Windings;
pub use zone::Zone;
