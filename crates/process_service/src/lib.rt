//! What a process does for all partitions that it holds, the same at a data process and at a parity process:
//! it asks heads, collects, tells, counts acknowledgements, follows other heads, and takes partitions over. The
//! contract of each call is one equation with the group's machine, whatever bytes are beneath. Sessions for lost
//! blocks, and how messages travel, are left to the processes.
#![tactic(auto)]

mod acknowledging;
mod acks;
mod applying;
mod asking;
mod collecting;
mod coming;
mod current;
mod following;
mod group_process;
pub mod inherited;
mod judging;
pub mod notice;
pub mod service;
pub mod step;
mod succession;
mod taking_over;
mod telling;

pub use group_process::GroupProcess;
pub use inherited::Inherited;
pub use notice::Notice;
pub use service::Service;
pub use step::Step;
