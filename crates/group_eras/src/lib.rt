//! A group's table over eras: after losses its items are carried into a fresh group, and its numbers go on rising. The
//! contracts say of every list of events and carries that the log of all eras is legal, that what is carried keeps its
//! flags, value and until, and that each era is a run of its own with the whole headline. Eras as a value, and scripts
//! over them, are left to others.
#![tactic(auto)]

pub mod fault;
pub mod laws;

pub use fault::CarryFault;
