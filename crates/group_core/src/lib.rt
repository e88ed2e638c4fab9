//! A group: its nodes, and what it keeps beside them, as one value that a run of events led to. The contract
//! of a step is one equation with the machine's, and after want of memory nothing but room has changed; so
//! what is proved of every run holds of every group. Which events come is left to the caller.
#![tactic(auto)]

mod asking;
mod calling;
mod coming;
mod delivering;
mod draining;
mod failing;
mod items;
mod members;
mod nodes;
mod reading;
mod turning;
mod world;

pub use failing::fail_at;
pub use items::ItemHead;
pub use nodes::Nodes;
pub use world::World;
