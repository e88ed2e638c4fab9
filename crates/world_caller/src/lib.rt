//! The caller that makes a connection's calls over one group: it drains the group, asks the head of the key's
//! partition until no block has to be rebuilt, and collects the ticket. The contract gives the events of a call by
//! these rules, and that no call is lost or asked more often than there are blocks, and once more. Reading the
//! connection's requests is left to the crates beside it.
#![tactic(auto)]

mod caller;
mod calling;
mod drain;
mod event;
mod failing;
pub mod laws;
mod serving;
mod stage;

pub use caller::WorldCaller;
pub use group_core::World;
pub use stage::{Next, Stage};
