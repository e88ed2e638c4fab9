//! What every head of a partition does, the same at a data process and at a parity process: it decides
//! calls, issues updates, counts acknowledgements, settles, and hands out and tells of calls. The contract
//! of each call is one equation with the group's machine. The bytes beneath, and how messages travel, are
//! left to the processes.
#![tactic(auto)]

pub mod ask;
pub mod beneath;
mod body;
pub mod decide;
pub mod fate;
pub mod flush;
pub mod head;
pub mod held;
pub mod issue;
pub mod judge;
pub mod laws;
pub mod news;
pub mod peers;
mod put_off;
mod ruling;
pub mod settle;
pub mod step;
pub mod take_over;

pub use ask::{Asking, Call};
pub use beneath::Beneath;
pub use head::Head;
pub use held::Held;
pub use peers::Peers;
pub use step::{CallStep, Sent, Settlement};
