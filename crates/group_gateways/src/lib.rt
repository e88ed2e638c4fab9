//! A gateway over those of several groups on the same machines. Its contract says of each call that it is one of the gateway of
//! the group of the op's key, and of each other gateway that it only came behind; and that closing reaches each. What the gateways of
//! the groups do is left to them.
#![tactic(auto)]

mod call;
mod exchanging;
mod gateway;
mod passing;

pub use call::GroupCall;
pub use gateway::GroupGateways;
