//! Eras of a group over machines, as laws: a later group goes on from the log of an earlier one whose items were
//! carried into it by clients' sets. The log over all is one legal log, carried items keep what they are, and what
//! clients of the later group are shown is the answer of that one table. A command that carries items has to see to
//! the premises of these laws.
#![tactic(auto)]

pub mod laws;
