//! The words in which a group's promises are told: events and what they are answered, the log and
//! its entries, what a head finds and decides of a call, and what it means that calls are answered within
//! their time. The crate holds plain data and definitions; who answers what is the pure machine's
//! and the processes'.
#![tactic(auto)]

pub mod decision;
pub mod entry;
pub mod event;
pub mod found;

pub use decision::Decision;
pub use entry::Entry;
pub use event::{Answer, Cause, Event, Out};
pub use found::Found;
