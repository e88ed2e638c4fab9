//! A group whose processes stand on machines of their own, as definitions: what each member has, what is on the wires
//! between them, what each does, and when. The contracts say of every run what the members' local histories make of the
//! machine of `group_run`, and what clients are shown. How a member's program keeps to it is left to others.
#![tactic(auto)]

pub mod laws;
pub mod rows;
