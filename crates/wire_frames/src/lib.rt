//! A stream of frames told as text, a line for each message. The contract gives how the stream ends, with what was read
//! of it, which messages that was, and what was written. The words that ask for it, and the line that tells of a bad
//! frame, are left to the program.
#![tactic(auto)]

mod ending;
mod line;
mod listing;
mod status;

pub use listing::frames;
pub use status::FramesStatus;
