//! What a case says that its writer may not have meant, by exact rules: substations without a ground to which windings
//! run, parts that nothing joins, loops of spans that don't close, values outside their usual range, zones where the alpha
//! of the table is low, voltages at one bus that don't fit, and delta-delta units at voltages that are assessed.

mod alpha;
mod closing;
mod finding;
mod gathered;
mod measured;
mod outside;
mod parts;
mod places;
mod reading;
mod sides;
mod span;
mod ungrounded;
mod union;

pub use finding::{Finding, Side};
pub use gathered::findings;
pub use measured::Quantity;
