//! What a group keeps beside its nodes: how many events there were, how often each caller asked, the log,
//! which updates of each partition it has, and the calls whose update was issued. Its contract is that
//! recording an event's answer, and what the event settled, is the machine's step on these parts. What an
//! event makes of the nodes is left to others.
#![tactic(auto)]

pub mod entering;
pub mod laws;
pub mod ledger;
mod places;
mod room;
mod settling;
mod tickets;

pub use entering::NewCall;
pub use ledger::Ledger;
