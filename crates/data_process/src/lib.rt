//! A data process: the replica of its own partition, which it heads, over the values of its space. The
//! contract of each call is one equation with the group's machine. How messages travel is left to the
//! links, and blocks that were lost to the parity processes.
#![tactic(auto)]

mod process;
mod reading;
mod values;

pub use process::DataProcess;
