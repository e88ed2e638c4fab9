//! The callers of a member as a gateway of many connections, without sockets, threads or clocks: calls begin at callers that
//! are free, are asked of the heads of their keys, and end by what the member shows. Its contract says that every change of
//! the member is a call of it, that each call that is open was begun so, and that its end is what it was told. When frames
//! come and go is left to the links that are given to it.
#![tactic(auto)]

mod asking;
mod calling;
mod calls;
mod command;
mod deaths;
mod dues;
mod ended;
mod fence;
mod free_callers;
mod gateway;
mod kind;
pub mod laws;
mod links;
mod listing;
mod outcome;
mod outgoing;
mod parking;
mod places;
mod queue;
mod receiving;
mod sending;
mod sets;
mod settling;
mod slots;
mod status;
mod steps;
mod treating;
mod usage;
mod waiting;
mod work;

pub use command::Command;
pub use gateway::MemberGateway;
pub use links::Links;
pub use outcome::Outcome;
pub use slots::OwnCall;
pub use usage::Usage;
