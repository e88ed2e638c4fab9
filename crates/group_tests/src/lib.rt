//! Groups, their callers, servers and the program by public calls alone: several groups on nodes, a group that threads share and
//! who calls it, connections to a group behind a port, and what the program writes where a dialogue can't be told by files.
//! They stand apart from the crates that they are about since a crate is proved once more with its tests, and in one crate since
//! each such crate is linked with all that it calls.
#![tactic(auto)]

#[cfg(test)]
mod callers;
#[cfg(test)]
mod cluster;
#[cfg(test)]
mod program;
#[cfg(test)]
mod server;
#[cfg(test)]
mod stage;
