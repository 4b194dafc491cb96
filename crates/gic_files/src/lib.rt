//! The file library as a trait, and one in memory.
#![tactic(auto)]

mod kept_names;
mod library;
mod memory_library;

pub use kept_names::{failed_fetch, keep_name};
pub use library::{FetchRefusal, Library, read_whole};
pub use memory_library::MemoryLibrary;
