//! The caller that makes a connection's calls over a group that threads share, from a seat of its own. The contract says
//! which events a call makes and how it ends: by the answer of its own last event, or since the seat has made all its
//! calls. In which order it goes on, rank by rank and link by link, the clauses of `Progress` say to this crate alone. How
//! soon is not promised, and reading requests is left to the crates beside it.
#![tactic(auto)]

mod asking;
mod caller;
mod calling;
mod collecting;
mod failing;
mod heads;
mod helping;
mod link;
mod looking;
mod pausing;
mod phase;
mod progress;
mod route;
mod step;
mod tracing;

pub use caller::StageCaller;
pub use phase::{Next, Phase};
