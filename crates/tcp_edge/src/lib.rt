//! A port of the machine as a listener of `edge_io`, with a source and a sink for each connection. Its contract
//! says how many connections it handed out and that a failure comes only with a counted fault. Which connections
//! come, and what their bytes are, is left to the system.
#![tactic(auto)]

mod accepting;
mod listening;
mod tcp_edge;

pub use tcp_edge::TcpEdge;
