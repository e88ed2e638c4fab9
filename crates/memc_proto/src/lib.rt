//! memcached's text protocol on one connection: requests read from bytes, however these are cut into
//! pieces, and the texts of the answers. The contract of `Reader::feed` says that what a reader gave so
//! far is the one list of requests that its bytes are read as, by a relation that names no reader;
//! `write_reply` and its siblings give the exact texts. Who answers the requests is left to the
//! crates above.
#![tactic(auto)]

pub mod command;
pub mod end;
pub mod field;
pub mod key_list;
pub mod laws;
pub mod line;
pub mod mode;
pub mod read_line;
pub mod reader;
pub mod reply_text;
pub mod request;
pub mod step;
pub mod store;
pub mod words;

pub use end::{CallEnd, FailEnd};
pub use key_list::KeyList;
pub use reader::Reader;
pub use reply_text::{
    end_of_items, fail_text, plain_text, refusal_text, too_long_text, version_text, write_reply,
};
pub use request::{Refusal, Request, Requests, Word};
