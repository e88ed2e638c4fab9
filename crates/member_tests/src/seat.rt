ghost use Rattle.group_types.specs.Names.{IsProcess};

use crate::gateway::TestGateway;
use crate::lines::{LineReadiness, Lines};
use crate::links::MemoryLinks;
use edge_io::FixedClock;
use group_types::{ProcessId, Shape};
use ready_worker::{Overlap, Station, Worker};
use std::alloc::{AllocError, Global};

/// How a member is.
#[derive(Clone, Copy, PartialEq, Eq)]
pub(crate) enum Life {
    Lives,
    /// It is said to be dead, and lives.
    Ghost,
    /// Its program doesn't run.
    Hangs,
    /// Its program has ended.
    Ended,
}

/// A member with its connections and its links.
#[derive(Drop)]
pub(crate) struct Seat<'t, G: TestGateway> {
    worker: Worker<'t, LineReadiness<'t>, G, FixedClock>,
    lines: &'t Lines,
    pub(crate) links: MemoryLinks,
    pub(crate) life: Life,
}

impl<'t, G: TestGateway> Seat<'t, G> {
    pub(crate) fn new(
        alloc: Global,
        shape: Shape,
        name: ProcessId,
        lines: &'t Lines,
        clock: &'t FixedClock,
        overlap: Overlap,
    ) -> Result<Seat<'t, G>, AllocError>
        requires { IsProcess shape name }
    {
        let links = MemoryLinks::new(alloc, shape)?;
        let station = Station::new(alloc, LineReadiness::new(lines))?;
        let gateway = G::open(alloc, shape, name)?;
        Ok(Seat {
            worker: Worker::new(station, gateway, clock, overlap),
            lines,
            links,
            life: Life::Lives,
        })
    }

    /// Its program gets this connection: whether it takes it.
    pub(crate) fn admits(&mut self, line: usize) -> bool {
        self.worker.admit(self.lines.stream(line))
    }

    /// A turn of its program, at this moment.
    pub(crate) fn turn(&mut self, now: u64) {
        if !matches!(self.life, Life::Lives | Life::Ghost) {
            return;
        }
        self.links.now = now;
        self.worker.receive(&mut self.links);
        let ready = self.worker.await_ready(None);
        self.worker.serve(ready);
        self.worker.send(&mut self.links);
    }

    /// How many calls of its connections are open.
    pub(crate) fn open_calls(&self) -> usize {
        self.worker.gateway().open_calls()
    }

    /// Whether it lives, and something is left to be done for a caller.
    pub(crate) fn is_busy(&self) -> bool {
        let gateway = self.worker.gateway();
        let is_idle = gateway.open_calls() == 0 && gateway.parked() == 0 && gateway.unshown() == 0;
        self.life == Life::Lives && !is_idle
    }
}
