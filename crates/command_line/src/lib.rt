//! The words of the command line behind the program's name, as the command that they say. The first word
//! names it, and the rest is read by a `clap` command, whose model of a parse the contract cites. What a
//! command does, and whether its numbers are in range for it, are left to the caller.
#![tactic(auto)]

mod command;
mod fault;
mod name;
mod parsers;
mod words;

pub use command::Command;
pub use fault::WordsFault;
pub use name::Name;
pub use words::read_words;
