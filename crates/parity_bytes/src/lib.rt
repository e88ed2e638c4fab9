//! What is beneath the partitions of a parity process: the space of its code, the copies that it keeps
//! as a row, and what it keeps as a leader. The contract of each call is an equation with the group's
//! machine on that part of its process. Replicas, heads and messages are left to the process.
#![tactic(auto)]

mod bytes;

pub use bytes::ParityBytes;
