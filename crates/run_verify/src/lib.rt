//! A transcript is verified by its script alone: each line is judged, and the first that fails is named. The contract says that
//! a yes means that all which is told is legal, answered within its time, placed apart and shown as it was written, and the
//! laws say that a no means that it isn't so.
//! `verify_text` reads the text from a source, and tells a yes. Reading the words of a transcript's lines is left to the
//! crate below, and telling why there is no yes to the program.
#![tactic(auto)]

mod account;
mod ahead;
mod answering;
pub mod call;
mod calls;
pub mod change;
mod entry;
mod items;
mod judge;
mod judging;
mod keep;
pub mod laws;
mod look;
mod pass;
mod places;
mod placing;
mod reading;
mod script;
mod setting;
mod shadow;
mod sheet;
mod spaces;
pub mod status;
pub mod step;
mod text;
pub mod verdict;
mod verifying;

pub use script::LONGEST_SHEET;
pub use status::VerifyStatus;
pub use text::verify_text;
pub use verdict::{Verdict, VerifyFault};
pub use verifying::verify;
