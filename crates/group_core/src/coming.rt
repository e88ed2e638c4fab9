ghost use Rattle.std.specs.Prelude.{◌↔◌, IsTrue};
ghost use Rattle.group_types.specs.Names.{IsProcess};
ghost use Rattle.group_run.specs.Headline.{MayCome};

use crate::world::World;
use group_calls::Event;
use group_types::{CALLERS, ProcessId, Shape};
use memc_table::values_are_bytes;

impl World {
    /// Whether the group has the process.
    pub fn has(&self, name: ProcessId) -> bool
        ensures { IsTrue result ↔ IsProcess self.now.shape name }
    {
        is_process(self.shape(), name)
    }

    /// Whether an event may come: callers and processes are of the group, a message goes between two, and the call
    /// that is traced was asked.
    pub fn may_come(&self, event: &Event) -> bool
        ensures { IsTrue result ↔ MayCome self.now event.now }
    {
        let shape = self.shape();
        match event {
            Event::Ask { caller, op, at } => {
                values_are_bytes(op.act());
                *caller < CALLERS && is_process(shape, *at)
            }
            Event::Collect { caller, at, .. } => *caller < CALLERS && is_process(shape, *at),
            Event::Deliver { from, to } => {
                is_process(shape, *from) && is_process(shape, *to) && from != to
            }
            Event::Fail { at, .. } => is_process(shape, *at),
            Event::Flush { at } => is_process(shape, *at),
            Event::Trace {
                caller,
                call,
                partition,
                at,
            } => {
                *caller < CALLERS
                    && *call < self.asks(*caller)
                    && partition.0 < shape.k()
                    && is_process(shape, *at)
            }
        }
    }
}

fn is_process(shape: Shape, name: ProcessId) -> bool
    ensures { IsTrue result ↔ IsProcess shape name }
{
    match name {
        ProcessId::DataNode(d) => d < shape.k(),
        ProcessId::ParityNode(i) => i < shape.m(),
    }
}
