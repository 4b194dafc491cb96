//! Report writing that modes share: their lines, one by one.
#![tactic(auto)]

mod cells;
mod counts;
mod items;
pub mod laws;
mod listed;
mod names;
mod role;
mod rows;
mod verdict;
mod write;

pub use counts::{Counts, add_counts, counted, no_counts};
pub use items::{add_ends, write_nodes, write_rows, write_signed};
pub use names::item_name;
pub use role::role_word;
pub use verdict::{add_verdict, verdict_in, write_absolutes, write_transformers};
pub use write::{write_field_line, write_sizes, write_word};
