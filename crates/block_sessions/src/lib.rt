//! What a leader keeps for its own block sessions: the open ones with what came in for them, and the
//! rebuilt blocks of each partition, in pages. The contract sees the leader's part of the group's
//! machine, and says how each call changes it; whom a leader asks, and when it starts or closes a
//! session, is left to the process.
#![tactic(auto)]

mod area;
mod arrivals;
mod rebuilt;
mod session;
mod sessions;

pub use sessions::Sessions;
