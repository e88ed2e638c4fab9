//! Connections that a few workers serve as their streams are ready, each worker over a caller of its own. The contract of
//! `serve_ready` says how many connections were accepted and why serving ended. What is said on a connection is left to
//! `Client`, and that the system tells when streams are ready and nobody starves to tests.
#![tactic(auto)]

mod acceptor;
mod closing;
mod crowd;
mod either;
mod exchange;
mod exchanging;
mod inbox;
mod notice;
mod poll_readiness;
mod readiness;
mod ready_listener;
mod serve;
mod settling;
mod share;
mod station;
mod told_edge;
mod watch;
mod worker;

pub use closing::Closing;
pub use crowd::{Crowd, CrowdChange, MOST_OPEN};
pub use either::serve_either;
pub use exchange::Exchange;
pub use front_end::Overlap;
pub use inbox::Inbox;
pub use notice::Notice;
pub use readiness::{Readiness, Wake};
pub use ready_listener::ReadyListener;
pub use serve::serve_ready;
pub use station::Station;
pub use told_edge::ToldEdge;
pub use watch::Watch;
pub use worker::Worker;
