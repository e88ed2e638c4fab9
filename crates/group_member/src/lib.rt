//! One process of a group with what a program on its own machine needs around it, as a value without sockets, threads or
//! clocks: whom it has cut, what the others said, pings, its callers and what they asked, and its node. The contract of each call is an action of
//! `group_wire`, so whatever a program does with a member is what a member may do.
#![tactic(auto)]

mod asking;
mod calling;
mod handing;
mod learning;
mod member;
mod names;
mod open_call;
mod own_caller;
mod own_callers;
mod receiving;
mod saying;
mod serving;
mod signing;
mod signs;
mod taking;
mod telling;
mod treating;
mod words;

pub use member::Member;
pub use names::{callers_each, gateway_of};
pub use open_call::{CallStage, OpenCall};
pub use own_caller::OwnCaller;
pub use own_callers::OwnCallers;
pub use receiving::Received;
pub use serving::Treatment;
pub use signs::OwnSigns;
pub use words::OwnWords;
