//! Who of a group is dead, by what an engine for agreement keeps of its members: the judgement as a value. The contract says
//! who is added to the dead, if anybody is. What is kept of members, and when this is asked, is left to others.
#![tactic(auto)]

mod judging;
mod standing;

pub use judging::{count_living, next_dead};
pub use standing::Standing;
