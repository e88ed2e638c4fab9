//! The messages of a group as bytes, and back: a message is one frame, and a stream of frames is read in pieces of any size.
//! The contract gives the bytes of each message, says which messages have a frame, and that what was read of a stream is
//! its whole frames. What the messages do, and how the bytes travel, is left to others.
#![tactic(auto)]

mod cut;
mod decoder;
mod fault;
pub mod fields;
mod kinds;
pub mod laws;
mod length;
mod limits;
mod message_list;
mod numbers;
mod put_message;
mod put_numbers;
mod put_update;
mod take_fields;
mod take_message;
mod take_update;
mod writing;

pub use decoder::{DecodeFault, Decoder};
pub use kinds::kind_of;
pub use limits::has_frame;
pub use message_list::MessageList;
pub use writing::{Around, encode, encode_around, spelled_length, value_of};
