//! Which processes of a group a process knows to be dead. The contract says who is known dead, how
//! many, and who then heads a partition: the living process of lowest rank. How the news of a death
//! travels is left to the processes.
#![tactic(auto)]

pub mod members;

pub use members::{AlreadyDead, Members};
