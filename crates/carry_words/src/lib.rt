//! What is said and answered when the items of a group are carried into a fresh one, and what is known of each item on its
//! way. The contract says what is asked for an item, as which answer bytes count, what becomes of the item by an answer, and
//! when all are carried: each that was listed was read, set with its flags and its end, and read back equal, or has ended.
//! Whom it is asked, and when, is left to others.
#![tactic(auto)]

mod answering;
mod asking;
mod carry;
mod course;
mod heard;
mod laws;
mod listed;
mod page;
mod places;
mod stage;
mod standing;
mod transfer;
mod word;

pub use answering::{Found, read_answer};
pub use asking::request_of;
pub use carry::Carry;
pub use course::CarryFault;
pub use heard::Heard;
pub use laws::done_means_carried;
pub use listed::Listed;
pub use page::{PageLine, read_line};
pub use stage::Stage;
pub use standing::{base_at, is_at_rest};
pub use transfer::Transfer;
pub use word::{Word, word_text};
