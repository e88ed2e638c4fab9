//! A parity process: it follows the partitions of others, copies blocks of its code as a row, takes
//! partitions over, and rebuilds the blocks of those that it heads. The contract of each call is one
//! equation with the group's machine. How messages travel is left to the links.
#![tactic(auto)]

mod closing;
mod marking;
mod opening;
mod process;
mod receiving;

pub use process::ParityProcess;
