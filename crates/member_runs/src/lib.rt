//! The members of a group, side by side, as laws: each a value with what it handed out and nobody has read. A step is a call
//! of one member, told by its clause in `group_member`, which reads the first of what another handed out to it. Whatever calls
//! they make, their actions are a run of the group on its machines, and all that is promised of such a run holds of them.
#![tactic(auto)]

pub mod laws;
