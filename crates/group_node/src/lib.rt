//! A node of a group: a process with its outgoing links, and the words whether it is dead and whether the
//! group is down. The contract of each call is one equation with the group's machine; room for all that a
//! step sends is made before it. Who asks which node, and the log of the group, are left to the group.
#![tactic(auto)]

mod asking;
mod coming;
mod delivery;
mod failing;
mod handing;
mod node;
mod process;
mod reading;
mod sending;

pub use delivery::deliver_between;
pub use node::{Node, NodeOut};
pub use sending::{index_of, process_at};
