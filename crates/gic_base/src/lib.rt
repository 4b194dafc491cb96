//! Names, indices, limits, the out-of-memory error, and byte sinks.
#![tactic(auto)]

mod id;
pub mod limits;
mod memory_sink;
mod name;
mod out_of_memory;
mod read_fault;
mod sink;

pub use id::{ElementId, NodeId};
pub use limits::LIMIT;
pub use memory_sink::MemorySink;
pub use name::Name;
pub use out_of_memory::OutOfMemory;
pub use read_fault::ReadFault;
pub use sink::{Sink, WriteFailed, write_all};
