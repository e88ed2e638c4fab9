//! One connection served over a fresh group with all its processes. The contract gives how the session ends, with what
//! was read and written, and the calls that led from the opening group to the one at the end. The words that ask for
//! a session, and the status that tells its end, are left to the program.
#![tactic(auto)]

mod connection;
mod end;

pub use connection::session;
pub use end::SessionEnd;
