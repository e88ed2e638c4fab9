//! Scripts played: `play` reads a script, treats its lines in order over a group, and writes the transcript; `make`
//! writes the script of a number, and `trial` what comes of playing it. The contract of `play` says which bytes are written
//! at each status, when each status comes, and that the script's group keeps the promises of the headline. The text
//! of a line and of an answer is left to `scenario_text`, and the group to `group_core`.
#![tactic(auto)]

mod deliveries;
pub mod entries;
pub mod group_subject;
pub mod laws;
pub mod make;
pub mod making;
mod next;
mod page;
mod placing;
pub mod play;
mod playing;
mod read_script;
pub mod showing;
pub mod status;
pub mod subject;
pub mod tell;
pub mod trial;
pub mod words;

pub use status::{Count, Status};
pub use subject::Subject;
