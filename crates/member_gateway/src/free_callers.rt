use crate::kind::Kind;
use std::alloc::{AllocError, Global};

/// The callers that have no call. Some are offered to connections that wait. Changes take at most three quarters of all,
/// so that gets go on where changes hang.
#[derive(Drop)]
pub(crate) struct FreeCallers {
    free: Vec<u32>,
    offered: usize,
    changing: u32,
    most_changing: u32,
}

impl FreeCallers {
    /// So many callers from the first, which are all free.
    pub(crate) fn new(alloc: Global, first: u32, each: u32) -> Result<FreeCallers, AllocError> {
        let mut free = Vec::with_capacity(alloc, each as usize)?;
        'callers: for x in 0..each {
            free.push(first.wrapping_add(x))?;
        }
        Ok(FreeCallers {
            free,
            offered: 0,
            changing: 0,
            most_changing: each - each / 4,
        })
    }

    /// How many are offered to nobody.
    pub(crate) fn left(&self) -> usize {
        self.free.len().saturating_sub(self.offered)
    }

    /// Whether one is left for a call of a kind.
    pub(crate) fn has_for(&self, kind: Kind) -> bool {
        self.left() > 0 && (kind == Kind::Get || self.changing < self.most_changing)
    }

    /// One is offered to a call of a kind.
    pub(crate) fn offer(&mut self, kind: Kind) {
        self.offered = self.offered.saturating_add(1);
        self.count(kind);
    }

    /// An offer is over.
    pub(crate) fn end_offer(&mut self, kind: Kind) {
        self.offered = self.offered.saturating_sub(1);
        self.uncount(kind);
    }

    /// One is taken for a call of a kind.
    pub(crate) fn take(&mut self, kind: Kind) -> Option<u32> {
        let caller = self.free.pop()?;
        self.count(kind);
        Some(caller)
    }

    /// One is free again.
    pub(crate) fn give_back(&mut self, caller: u32, kind: Kind) {
        self.uncount(kind);
        let _ = self.free.push(caller);
    }

    fn count(&mut self, kind: Kind) {
        if kind == Kind::Change {
            self.changing = self.changing.saturating_add(1);
        }
    }

    fn uncount(&mut self, kind: Kind) {
        if kind == Kind::Change {
            self.changing = self.changing.saturating_sub(1);
        }
    }
}
