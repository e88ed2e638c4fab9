//! What a row of the code keeps for block sessions: a copy of a block for each, which it freezes
//! partition by partition at the marks that come, and the last session that each leader ceased. Each
//! contract is the machine's equation on these. Which marks a row takes, and whom it sends a copy,
//! are left to its process.
#![tactic(auto)]

mod area;
mod copies;
pub mod copy;
pub mod laws;
mod marks;
pub mod rows;

pub use copy::Copy;
pub use rows::Rows;
