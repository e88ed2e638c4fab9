//! A connection that is served as its stream is ready, in turns, over a gateway that it shares with others. The contract
//! of `Client::turn` says that what was written of it, sent or not, is the text of its requests and of their calls' ends, in
//! the order of the requests, each call begun where the last one of its sequence ended or later, and that it is over only once
//! all of that was sent or the stream counted a fault. Its clause `asks` says that a turn is a list of steps, one behind the other
//! with nothing between them, each of which begins a call that is due, answers with the end of the first call, lets go of one
//! that is wanted no more, gives the order that is due, or asks nothing of the gateway, and that nothing is begun or read while
//! more than 256 KiB wait to be sent. When it has its turns is left to a worker.
#![tactic(auto)]

mod ahead;
mod answer;
mod call_list;
mod calls;
mod client;
mod ending;
pub mod laws;
mod open_call;
mod step;
mod turning;

pub use client::{Client, Turn};
