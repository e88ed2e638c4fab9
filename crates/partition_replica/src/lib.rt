//! The replica of a partition: its settled items, the log of the updates above its applied number, what
//! became of each caller's last applied update, and the free runs of the value space. Contracts see the
//! replica of the group's machine, and beside it the room for further updates; that the free runs are the
//! machine's free addresses is inside the type. The bytes of the values are left to the processes.
#![tactic(auto)]

mod clear;
mod items;
mod left;
mod replica;
mod returned;
mod runs;
mod updates;

pub use replica::Replica;
