//! What clients of a member are written, as a law: where members side by side made steps, and a connection at one of them
//! was answered by calls of its own, each reply that it was written stands in the log of the run that these steps make, for
//! what the client asked, logged while the call was open, and in the order in which it was sent. That the member's calls
//! are those that are told of the connection is a premise.
#![tactic(auto)]

pub mod laws;
