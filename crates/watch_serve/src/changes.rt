use crate::wire::{Came, Wire};
use std::alloc::Global;

/// How often a connection on which etcd tells changes is tried, in milliseconds.
const AGAIN: u64 = 1_000;

/// A connection on which etcd says something at each change. What it says isn't read: who hears it looks again.
#[derive(Drop)]
pub(crate) struct Changes {
    wire: Option<Wire>,
    due: u64,
}

impl Changes {
    /// No connection yet.
    pub(crate) fn new() -> Changes {
        Changes { wire: None, due: 0 }
    }

    /// Whether a connection is wanted.
    pub(crate) fn is_wanted(&self, now: u64) -> bool {
        self.wire.is_none() && now >= self.due
    }

    /// A connection on which etcd was asked for changes, if there could be one.
    pub(crate) fn begin(&mut self, wire: Option<Wire>, now: u64) {
        self.wire = wire;
        self.due = now.saturating_add(AGAIN);
    }

    /// Lets the connection go.
    pub(crate) fn give_up(&mut self) {
        self.wire = None;
    }

    /// Goes on. Says whether something came.
    pub(crate) fn go_on(&mut self) -> bool {
        let Some(wire) = &mut self.wire else {
            return false;
        };
        let came = wire.go_on();
        let some = !wire.text().is_empty();
        wire.forget();
        if came != Came::Open {
            self.wire = None;
        }
        some
    }
}
