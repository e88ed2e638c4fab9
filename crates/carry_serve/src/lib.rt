//! Carrying the items of a group over machines into a fresh one: closes the old group, waits until it is at rest, reads its items
//! as its heads list them, sets them in the new group and reads them back, and then lets the old group's clients go. The
//! contract says that each call is safe and each turn ends; what becomes of an item by which answer, and when all are
//! carried, is that of `carry_words`. What members and the system's streams bring, and when, is left to tests.
#![tactic(auto)]

mod asking;
mod carrying;
mod closing;
mod counting;
mod group;
mod hearing;
mod lane;
mod listing;
mod net_carrier;
mod places;
mod report;
mod stop;
mod talk;
mod talking;
mod telling;
mod turning;
mod whole;
mod wire;

pub use net_carrier::NetCarrier;
pub use report::CarryReport;
