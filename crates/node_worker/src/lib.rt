//! The workers that serve the connections of a listener, each over a caller that a port lends. The contract of
//! `serve_all` says how many connections were accepted and why serving ended. What is said on a connection is left
//! to `serve_connection`, and that workers run beside each other to tests.
#![tactic(auto)]

mod fault;
mod gate;
mod pool;
mod port;
mod serving;
mod workers;

pub use fault::ServeFault;
pub use gate::{Gate, OpenGate};
pub use port::Port;
pub use serving::Serving;
pub use workers::serve_all;
