//! Scripts of a group over eras, played: `play_regroup` reads a script, treats its lines in order over a real group, and
//! writes the transcript. Its contract is the one of `play`, for this language of scripts. The text of lines and of
//! answers is left to `scenario_text`, reading and writing to `scenario_play`, and the eras to `group_regroup`.
#![tactic(auto)]

mod carrying;
mod deliveries;
pub mod laws;
mod next;
mod placing;
pub mod play;
mod playing;
mod reading;
mod showing;
mod subject;
mod writing;

pub use play::play_regroup;
