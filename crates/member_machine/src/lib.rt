//! A machine on which a member of a group can run, and what can watch it there: the traits `Machine` and `Watcher`, and one in
//! memory that runs nothing. Its
//! contract says what a run by settings may come to in the machine's own words, and which settings it may be given.
//! Links, clients and the member itself are left to those who implement it.
#![tactic(auto)]

mod carrier;
mod carry_end;
mod end;
mod machine;
mod memory_machine;
mod watcher;

pub use carrier::Carrier;
pub use carry_end::CarryEnd;
pub use end::MemberEnd;
pub use group_config::{CarryKey, CarrySettings, MemberKey, MemberSettings, WatchSettings};
pub use machine::Machine;
pub use memory_machine::MemoryMachine;
pub use watcher::Watcher;
