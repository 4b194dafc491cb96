//! Screening of a network: the field to the north and to the east solved, and the worst orientation of each
//! transformer.
#![tactic(auto)]

mod fields;
mod lines;
mod rows;
mod screening;
mod setting;

pub use fields::{FieldVolts, field_volts};
pub use lines::write_transformers;
pub use rows::{ScreenRow, ScreenRows};
pub use screening::{ScreenWorkspace, make_screen_workspace, screen_net};
pub use setting::{Setting, setting_of, write_setting};
