//! A gateway over another, of a group whose items are moved into a fresh group, or came out of an earlier one: it can be closed,
//! and then refuses each call that may change an item, while gets and the calls that are open go on; and the cas numbers that
//! its clients are told and bring go on from a base for each partition. Its contract says of each call that it was refused so, or
//! is one of the inner gateway with the base taken off, whose end is told with the base added. What the inner gateway does is
//! left to it.
#![tactic(auto)]

mod call;
mod exchanging;
mod gateway;
mod keyed;
mod numbers;

pub use call::MovingCall;
pub use gateway::MovingGateway;
pub use keyed::Keyed;
