//! A connection served: requests are read from a source, a caller makes their calls, and the answers
//! are written to a sink. The contract of `serve_connection` says, for any caller, which text is written
//! at each end, and what stands after each fault. A connection whose calls end later is served by `due` and `settle` over a
//! gateway. What a call does is left to the caller or the gateway.
#![tactic(auto)]

mod acts;
mod answers;
mod at_once;
mod caller;
mod close;
mod connection;
mod due;
mod end;
mod gateway;
mod keys;
mod overlap;
mod piece;
mod serve;
mod settle;
mod text;
mod waiting;

pub use at_once::{AtOnce, OnlyCall};
pub use caller::Caller;
pub use connection::Connection;
pub use due::Due;
pub use end::{ConnectionFault, End};
pub use gateway::Gateway;
pub use overlap::{Need, Overlap};
pub use serve::serve_connection;
