//! The edge of the program: traits for where bytes come from, where they go, how connections
//! arrive and what time it is, with implementations in memory and over the operating system.
//! A contract says which bytes moved, at every edge, and that a failure comes only with a counted
//! fault. That the system's reads and writes move the bytes that they say, and its clock, is left to them.
#![tactic(auto)]

mod arrival;
mod calls;
mod clock;
mod fault;
mod fixed_clock;
pub mod laws;
mod listener;
mod memory_listener;
mod memory_sink;
mod memory_source;
mod past;
mod read_edge;
mod reading;
mod shared_sink;
mod sink;
mod source;
mod system_clock;
mod write_edge;
mod writing;

pub use clock::Clock;
pub use fault::{Failed, ReadFault, SinkFault};
pub use fixed_clock::FixedClock;
pub use listener::Listener;
pub use memory_listener::MemoryListener;
pub use memory_sink::MemorySink;
pub use memory_source::MemorySource;
pub use past::Past;
pub use read_edge::ReadEdge;
pub use reading::read_whole;
pub use shared_sink::SharedSink;
pub use sink::Sink;
pub use source::Source;
pub use system_clock::SystemClock;
pub use write_edge::WriteEdge;
pub use writing::write_all;
