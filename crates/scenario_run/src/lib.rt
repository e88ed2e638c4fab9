//! What a script makes of a group: the events of its lines, the transcript that is written for them, and the first
//! line that is refused, as definitions over the group's machine. The contract says that every script's group keeps
//! the promises of the headline. A text is cut into its lines here; reading and writing are left to the crates above.
#![tactic(auto)]

ghost use Rattle.scenario_run.specs.Promises.{ScriptsKeepPromises};

mod cut;

pub use cut::{count_lines, cut_line};

/// Where no line is refused, the answers are those of one table in the order of one log, no logged update is undone,
/// and what is shown is what the log tells.
pub fn scripts_keep_promises()
    ensures { ScriptsKeepPromises }
{}
