//! Scripts of several groups on nodes, played: `play_groups` reads a script, treats its lines in order over a cluster of
//! real groups, and writes the transcript. Its contract is the one of `play`, for this language of scripts. The text of a
//! group's line is left to `scenario_text`, reading and writing to `scenario_play`, and the groups to `group_cluster`.
#![tactic(auto)]

mod deliveries;
pub mod laws;
mod making;
mod next;
pub mod play;
mod playing;
mod reading;
mod subject;
mod writing;

pub use play::play_groups;
