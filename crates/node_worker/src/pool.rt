use crate::gate::Gate;
use crate::port::Port;
use crate::serving::Serving;
use edge_io::{Clock, Sink, Source};
use front_end::{Caller, serve_connection};
use std::alloc::Global;
use std::sync::atomic::{AtomicU64, Ordering};

/// What the connections of a group are served with, and how many are being served.
#[derive(Drop)]
pub(crate) struct Pool<'h, P, G, T> {
    alloc: Global,
    port: &'h P,
    gate: &'h G,
    clock: &'h T,
    workers: u64,
    serving: AtomicU64,
}

impl<'h, Q: Caller + Drop, P: Port<Lent = Q>, G: Gate, T: Clock> Pool<'h, P, G, T> {
    /// Nothing is being served.
    pub(crate) fn new(alloc: Global, serving: &Serving<'h, P, G, T>) -> Pool<'h, P, G, T> {
        Pool {
            alloc,
            port: serving.port,
            gate: serving.gate,
            clock: serving.clock,
            workers: u64::from(serving.workers),
            serving: AtomicU64::new(0),
        }
    }

    /// Whether fewer connections are being served than there are workers.
    pub(crate) fn has_free_worker(&self) -> bool {
        self.serving.load(Ordering::SeqCst) < self.workers
    }

    /// A caller for the next connection, which counts as being served from then on.
    pub(crate) fn lend(&self) -> Option<Q> {
        let caller = self.port.lend()?;
        self.serving.fetch_add(1, Ordering::SeqCst);
        Some(caller)
    }

    /// Serves a connection to its end, and lets it go. An end or a fault of its own ends it alone.
    pub(crate) fn serve<I: Source + Drop, O: Sink + Drop>(
        &self,
        number: u64,
        source: I,
        sink: O,
        caller: Q,
    ) {
        self.gate.before(number);
        let (mut source, mut sink, mut caller) = (source, sink, caller);
        let _ = serve_connection(self.alloc, &mut caller, &mut source, &mut sink, self.clock);
        drop(source);
        drop(sink);
        self.port.give_back(caller);
        self.gate.after(number);
        self.serving.fetch_sub(1, Ordering::SeqCst);
    }
}
