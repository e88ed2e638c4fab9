//! The space of a parity process: the sum of the differences of all partitions, each times its
//! coefficient, kept in pages. The contract sees the whole list of bytes, to which `apply` adds, and
//! which pages were made; which updates are settled is left to the process.
#![tactic(auto)]

mod space;

pub use space::ParitySpace;
