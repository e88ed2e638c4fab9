//! The calls that everything goes through. `run_words` takes what the system gave as arguments, and gives what the program
//! ends with: `main` is one call of it. `run_program` reads the words of a command line and does what they ask for over any
//! input, output, listener, machine and clock. Its contract says, by cases of the command, what is written and when each
//! status comes. Which streams are meant is left to the program that calls it, and what a run of a member does to its
//! machine.
#![tactic(auto)]

mod arguments;
mod carry_line;
mod carry_stop;
mod carrying;
mod commands;
mod edges;
mod ending;
mod explain;
mod finding;
mod help;
mod listing;
mod member_line;
mod member_run;
mod member_stop;
mod notice;
mod program;
mod refused_line;
mod run;
mod running;
mod script_line;
mod serving;
mod serving_group;
mod verifying;
mod watching;

pub use carry_stop::CarryStop;
pub use edges::Edges;
pub use explain::Explain;
pub use group_server::{Finding, Notice, Settings, Silent};
pub use help::help_at;
pub use member_machine::{
    Carrier, CarryEnd, CarryKey, CarrySettings, Machine, MemberEnd, MemberKey, MemberSettings,
    MemoryMachine, WatchSettings, Watcher,
};
pub use member_run::MemberRun;
pub use member_stop::MemberStop;
pub use notice::{loss_of, notice_of};
pub use program::run_program;
pub use run::run_words;
pub use scenario_play::Status;
