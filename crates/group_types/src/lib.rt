//! The small types that every part of a coding group speaks of: its shape, the names of its
//! processes, keys, payloads and runs. Each contract says which values there are: a `Shape` and a
//! `Key` are within their limits, and `home` is FNV-1a modulo the number of partitions. What the
//! group does with them is left to the crates above.
#![tactic(auto)]

pub mod byte_list;
pub mod config_key;
pub mod hash;
mod hashed;
pub mod key;
pub mod key_limits;
pub mod payload;
pub mod piece_list;
pub mod process;
pub mod run;
pub mod shape;
mod shared_bytes;

pub use byte_list::ByteList;
pub use config_key::ConfigKey;
pub use hash::home;
pub use key::{Key, KeyFault};
pub use key_limits::is_key;
pub use payload::Payload;
pub use piece_list::{Piece, PieceList};
pub use process::{CALLERS, Partition, ProcessId, Rank};
pub use run::Run;
pub use shape::{BadShape, Field, Shape};
