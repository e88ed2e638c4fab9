use crate::request::{Refusal, Request};
use crate::store::Store;

/// What a line says.
#[derive(Drop)]
pub enum Line {
    /// A whole request, or a refusal that skips nothing.
    Whole(Request),
    /// A store, whose data block follows.
    Stores(Store),
    /// A refusal that skips this many bytes behind the line.
    Skips { refusal: Refusal, len: u64 },
}
