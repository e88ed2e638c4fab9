ghost use Rattle.group_types.specs.Names.{IsProcess};

use crate::links::MemoryLinks;
use group_types::{ProcessId, Shape};
use ready_worker::Exchange;
use std::alloc::{AllocError, Global};

/// The gateway of a member, as its tests see it.
pub(crate) trait TestGateway: Exchange<MemoryLinks> + Drop + Sized {
    /// That of a member at the start.
    fn open(alloc: Global, shape: Shape, name: ProcessId) -> Result<Self, AllocError>
        requires { IsProcess shape name };

    /// How many calls are open.
    fn open_calls(&self) -> usize;

    /// How many requests are parked.
    fn parked(&self) -> usize;

    /// How many answers wait to be shown.
    fn unshown(&self) -> usize;
}
