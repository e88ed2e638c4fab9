use crate::line::Presence;
use std::alloc::Global;
use std::collections::VecDeque;

/// How many answers a client waits for at most.
const DEPTH: usize = 17;

/// What a client does.
#[derive(Clone, Copy, PartialEq, Eq)]
pub(crate) enum Kind {
    /// It does the rows with a key that nobody else changes.
    Rows,
    /// It raises the counter of all, and reads it.
    Counts,
    /// It raises another counter of all by a gets and a cas.
    Swaps,
    /// It gets the keys of others.
    Reads,
    /// It does rows with a key of its own, raises the counter of all and gets the keys of others.
    Mixes,
}

/// What a client waits to hear, and what was heard by anybody before it asked.
#[derive(Clone, Copy)]
pub(crate) enum Wanted {
    /// That it was stored.
    Stored,
    /// The answer of the row of a number.
    Row(u64),
    /// The counter's number after it was raised behind this one.
    Raised(u64),
    /// The counter, at least this.
    Count(u64),
    /// The other counter with its unique, at least this.
    Item(u64),
    /// Whether the other counter was raised from a number.
    Swapped(u64),
    /// The key of a client after at least so many of its rows.
    State { of: usize, least: u64 },
    /// The keys of two clients, by one get.
    States { of: [usize; 2], least: [u64; 2] },
}

/// A client at a member: what it said and heard.
#[derive(Drop)]
pub(crate) struct TestClient {
    pub(crate) seat: usize,
    pub(crate) line: usize,
    pub(crate) kind: Kind,
    pub(crate) key: u8,
    pub(crate) presence: Presence,
    /// How many rows it said, and how many are done as it heard.
    pub(crate) said: u64,
    pub(crate) done: u64,
    /// How many bytes it heard and judged.
    pub(crate) seen: usize,
    pub(crate) open: VecDeque<Wanted>,
    /// The other counter and its unique, as it got them last.
    pub(crate) item: Option<(u64, u64)>,
}

impl TestClient {
    pub(crate) fn new(alloc: Global, seat: usize, line: usize, kind: Kind, key: u8) -> TestClient {
        TestClient {
            seat,
            line,
            kind,
            key,
            presence: Presence::Stays,
            said: 0,
            done: 0,
            seen: 0,
            open: VecDeque::new(alloc),
            item: None,
        }
    }

    /// Whether it waits to hear something.
    pub(crate) fn waits(&self) -> bool {
        self.presence != Presence::Breaks && !self.open.is_empty()
    }

    /// Whether it may say more: it is there, and not much is to be heard.
    pub(crate) fn may_speak(&self) -> bool {
        self.presence == Presence::Stays && self.open.len() < DEPTH
    }

    /// Whether it does rows with its key.
    pub(crate) fn does_rows(&self) -> bool {
        matches!(self.kind, Kind::Rows | Kind::Mixes)
    }

    /// An answer of so many bytes was judged.
    pub(crate) fn see(&mut self, len: usize) {
        let _ = self.open.pop_front();
        self.seen = self.seen.saturating_add(len);
    }
}
