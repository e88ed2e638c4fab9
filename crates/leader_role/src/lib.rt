//! The part of a parity process that leads block sessions: whom it asks and what it sends. The contract of
//! each call is what the group's machine makes of a process with the same parts; what holds of a process
//! that lets it lead is stated, and kept by every step. The sessions themselves are left to the processes.
#![tactic(auto)]

pub mod cease;
pub mod rows;
pub mod soundness;
pub mod start;

pub use start::Start;
