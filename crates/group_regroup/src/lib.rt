//! A group over eras as a value: one world at a time, whose numbers are told with a base, and whose items a carry
//! puts into a fresh world. The contract of each call is one equation with the eras' machine; so what is proved of
//! every history of eras holds of it. Scripts over eras are left to others.
#![tactic(auto)]

mod carrying;
mod changing;
mod drain;
mod ending;
mod entries;
mod fresh;
mod getting;
mod items;
mod last;
mod loading;
mod log;
mod reading;
mod regroup;
mod setting;
mod stepping;
mod telling;

pub use regroup::Regroup;
