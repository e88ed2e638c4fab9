//! The text of a script and of its transcript: what a line of a script means, and how answers, entries
//! of the log and shown bytes are written. The contracts say the meaning of a line by cases on its words,
//! and the exact bytes that are written. What a line does to a group is left to the crates above.
#![tactic(auto)]

pub mod act_text;
pub mod keyword;
pub mod line;
pub mod read_act;
pub mod read_event;
pub mod read_line;
pub mod read_value;
pub mod read_word;
pub mod reply_text;
pub mod split;
pub mod verb;
pub mod write_answer;
pub mod write_entry;
pub mod write_places;
pub mod write_shown;

pub use line::{Line, LineFault};
