//! Several groups on nodes, as one value that a run of cluster events led to. The contract of a step is one equation
//! with the definition of a cluster, so that its laws hold of every cluster; the log is kept as places in the logs of
//! the groups. Which events come is left to the caller.
#![tactic(auto)]

mod cluster;
mod failing;
mod groups;
mod layout;
mod reading;

pub use cluster::Cluster;
pub use groups::ClusterEntries;
pub use layout::{BadLayout, Layout, LayoutField};
