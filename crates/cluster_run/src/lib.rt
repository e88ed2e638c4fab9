//! What a script makes of several groups on nodes: the events of its lines, the transcript that is written for them, and
//! the first line that is refused, as definitions over a cluster of groups. A group's line is read, and what a group
//! answers is written, by the definitions for scripts of one group. The contract says that every script's cluster keeps
//! the promises of the headline. Reading and writing are left to the crates above.
#![tactic(auto)]

mod fault;
pub mod laws;

pub use fault::ClusterFault;
