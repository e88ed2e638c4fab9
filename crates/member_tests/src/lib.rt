//! Members of a group side by side in one program, over links in memory, with clients at each: what every client hears is
//! the protocol's text, as one machine answers it, and what one table allows, whatever comes late, goes lost or dies. They
//! are tests of public calls alone. Links over sockets and the program around a member are left to other tests.
#![tactic(auto)]

#[cfg(test)]
mod client;
#[cfg(test)]
mod course;
#[cfg(test)]
mod crowd;
#[cfg(test)]
mod deaths;
#[cfg(test)]
mod gateway;
#[cfg(test)]
mod group;
#[cfg(test)]
mod hearing;
#[cfg(test)]
mod judge;
#[cfg(test)]
mod line;
#[cfg(test)]
mod lines;
#[cfg(test)]
mod links;
#[cfg(test)]
mod machine;
#[cfg(test)]
mod member;
#[cfg(test)]
mod number;
#[cfg(test)]
mod rows;
#[cfg(test)]
mod schedules;
#[cfg(test)]
mod seat;
#[cfg(test)]
mod settling;
#[cfg(test)]
mod speaking;
#[cfg(test)]
mod tally;
#[cfg(test)]
mod tests;
#[cfg(test)]
mod waits;
