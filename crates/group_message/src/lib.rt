//! What the processes of a group send to one another (the messages of a Cocytus group as Zhang, Dong
//! and Chen outline them, in this project's own form). The crate holds plain data; who sends what,
//! and what a message does where it arrives, is the pure machine's and the processes'.
#![tactic(auto)]

pub mod kept;
pub mod lists;
pub mod message;
pub mod update;

pub use kept::Kept;
pub use lists::{RowList, UpdateList};
pub use message::{Message, Session};
pub use update::{Body, Outcome, Update};
