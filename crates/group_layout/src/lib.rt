//! Several groups on nodes, so that the loss of a node costs each group one process at most. The contracts say where
//! processes stand and which group a key is of, and of every list of events of a cluster that each group makes a run
//! of its own, with the whole headline. A cluster as a value, and scripts over it, are left to others.
#![tactic(auto)]

pub mod event;
pub mod laws;
pub mod layout;

pub use event::{ClusterAnswer, ClusterEvent, ClusterOut};
