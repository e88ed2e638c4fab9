//! Reads and writes that do not wait, and the outbox of a connection that is served by them. The contracts say which
//! bytes moved and that what was put into an outbox goes out in order; when a stream can move more is left to who waits
//! for it.
#![tactic(auto)]

mod front;
mod outbox;
mod reading;
mod sending;
mod supply;
mod try_edge;
mod try_stream;

pub use outbox::Outbox;
pub use reading::Reading;
pub use sending::Sending;
pub use try_edge::TryEdge;
pub use try_stream::TryStream;
