//! What a parity process does for a partition that another process heads: it follows the head's updates,
//! applies what is settled, and adopts a new head's log. The contract of each call is the machine's equation
//! for the partition's replica and the bytes beneath. Whether a message is stale, and what is acknowledged,
//! are left to the processes.
#![tactic(auto)]

pub mod adopt;
pub mod apply;
pub mod follow;
mod keys;
mod prepare;
