//! Files and streams of the operating system, behind the traits of `gic_files` and `gic_base`.
#![tactic(auto)]

mod files;
mod streams;
mod tries;

pub use files::{FileLibrary, Opener, SystemFiles};
pub use streams::StreamSink;
pub use tries::{MOST_TRIES, read_some, write_some};
