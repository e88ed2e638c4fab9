//! What clusters, eras and transcripts tell, said once more in words that are no definition of theirs. Each law pins a
//! definition below that could be wrong and still pass all other laws: who is dead where nodes have failed, and which
//! group an ask is sent to; with which numbers an era goes on, and what is carried; what the lines of a transcript say, and
//! the numbers of a text that is verified.
#![tactic(auto)]

pub mod clusters;
pub mod eras;
pub mod transcripts;
pub mod verdicts;
