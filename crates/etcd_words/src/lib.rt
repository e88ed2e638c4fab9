//! What is said to etcd and what it answers, over its JSON gateway: the text of a request, and an answer from its bytes. How
//! bytes travel, and what to ask next, is left to others.
#![tactic(auto)]

mod answer;
mod ask;
mod body;
mod entries;
mod json;
mod request;

pub use answer::{Answer, answer_of, lease_in, seconds_in, was_done};
pub use ask::Ask;
pub use entries::{Entry, Kept, entries_in};
pub use request::request_of;
