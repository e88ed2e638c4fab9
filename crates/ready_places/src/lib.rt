//! Values by their keys, and a queue of some of those keys. The contracts say that a key that has a place is queued
//! whenever it is put there, with no need of memory, that the queue has each key once, and that keys are taken in its order.
#![tactic(auto)]

mod key_queue;
mod places;

pub use key_queue::KeyQueue;
pub use places::Places;
