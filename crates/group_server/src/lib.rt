//! A group behind a port: connections are served by callers over one stage, each from a seat of its own, while one
//! further thread delivers what callers left behind. The contract of `serve_group` says how many connections were
//! accepted and why serving ended, and that of `serve` the same of a group whose settings a source gives, with what is
//! written. What is said on a connection is left to the crates of callers and of connections.
#![tactic(auto)]

mod bell;
mod deliverer;
mod fault;
mod losses;
mod notice;
mod pool;
mod server;
mod service;
mod telling;
mod terms;
mod told_caller;

pub use fault::ServiceFault;
pub use group_config::{Finding, Settings};
pub use notice::{Notice, Silent};
pub use ready_worker::ReadyListener;
pub use server::serve_group;
pub use service::serve;
pub use terms::Terms;
