//! memcached's table: ops, replies, and `Table::apply`, which gives the reply and the next table of
//! memcached's protocol; after want of memory the table is as it was. Who keeps a table, and in which
//! order calls reach it, is left to the crates above.
#![tactic(auto)]

pub mod act;
pub mod expiry;
pub mod holding;
pub mod numeral;
pub mod op;
pub mod reply;
pub mod rule;
pub mod ruling;
pub mod table;

pub use act::{Act, values_are_bytes};
pub use holding::Holding;
pub use op::Op;
pub use reply::{Item, Reply};
pub use table::Table;
