//! The reactive loss of saturated transformers, taken as proportional to their effective current: two monitors, which
//! differ in where the factor of a transformer comes from.

mod current;
mod limits;
mod table_loss;
mod total;
mod totals;
mod volt_loss;

pub use limits::MOST_SCALE;
pub use table_loss::{NamedFactor, TableLoss};
pub use volt_loss::VoltLoss;
