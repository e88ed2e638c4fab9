ghost use Rattle.std.specs.Prelude.{◌≡◌, vec_len};

use crate::readiness::Readiness;
use std::alloc::{AllocError, Global};

/// The most bytes that one read takes.
const PIECE: usize = 65_536;

/// What a worker needs before it has a caller: what tells it which streams are ready, and memory for a piece that is read.
#[derive(Drop)]
pub struct Station<Y> {
    pub(crate) alloc: Global,
    pub(crate) readiness: Y,
    pub(crate) room: Vec<u8>,
    ghost full: { vec_len room ≡ 65536 },
}

impl<Y: Readiness> Station<Y> {
    /// A station that is told of ready streams by this.
    pub fn new(alloc: Global, readiness: Y) -> Result<Station<Y>, AllocError> {
        Ok(Station {
            alloc,
            readiness,
            room: vec![in alloc; 0; PIECE]?,
        })
    }

    /// What tells it of ready streams.
    pub(crate) fn readiness(&self) -> &Y {
        &self.readiness
    }
}
