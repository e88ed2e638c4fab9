//! A group whose nodes are shared by threads, each call one event of the group's machine. The contract of a call says
//! what it ended in: its event stands in one schedule, with the machine's answer there, or the word of a process that
//! it names was held by another seat; and `close` gives the nodes after exactly the schedule of the seats. A delivery
//! takes its two nodes in the order of processes. No call waits or tries again, which is left to the callers.
#![tactic(auto)]

mod all_nodes;
mod answer;
mod asking;
mod closing;
mod collecting;
mod delivering;
mod failing;
mod finishing;
mod flushing;
mod looking;
mod opening;
mod places;
mod plays;
mod seat;
mod seats;
mod stage;
mod tracing;
mod view;

pub use answer::StageAnswer;
pub use closing::Unclosed;
pub use looking::Looked;
pub use seat::Seat;
pub use seats::Seats;
pub use stage::Stage;
