//! What the calls of one connection over a fresh group come to: their replies are those of one table, and each logs its
//! entry alone. It is told of the calls that may lead from the fresh group on; that a connection's calls do so is
//! left to the crate that serves it.
#![tactic(auto)]

ghost use Rattle.caller_table.specs.Tables.{OneTableAlways};

pub use world_caller::{World, WorldCaller};

/// The ends of a connection's calls are those of one table that begins empty: a reply is the table's, and the log has
/// exactly its entry behind those before; where there was no space or the group is down, log and places are as they were.
pub fn answers_are_the_tables()
    ensures { OneTableAlways }
{}
