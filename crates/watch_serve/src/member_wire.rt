use crate::wire::{Came, Wire};
use memchr::memchr;
use std::alloc::Global;
use std::str::from_utf8;

/// How long a connection to the member may take to be there, and how often it is tried, in milliseconds.
const CONNECTING: u64 = 1_000;

const AGAIN: u64 = 200;

/// How the connection to the member is.
#[derive(Clone, Copy, Debug, PartialEq, Eq)]
pub(crate) enum Presence {
    /// The member wasn't there yet.
    Awaited,
    /// It is there.
    There,
    /// Its connection ended, and it may be there still: since when.
    Doubtful(u64),
    /// It ended.
    Gone,
}

/// The connection to the member's control address.
#[derive(Drop)]
pub(crate) struct MemberWire {
    wire: Option<Wire>,
    opened: u64,
    due: u64,
    presence: Presence,
    /// What it was told on this connection, and answers yet.
    pub(crate) asked: String,
    pub(crate) asked_at: u64,
    /// What it took.
    pub(crate) taken: String,
}

impl MemberWire {
    /// The member is awaited.
    pub(crate) fn new(asked: String, taken: String) -> MemberWire {
        MemberWire {
            wire: None,
            opened: 0,
            due: 0,
            presence: Presence::Awaited,
            asked,
            asked_at: 0,
            taken,
        }
    }

    /// How the connection is.
    pub(crate) fn presence(&self) -> Presence {
        self.presence
    }

    /// Whether a connection is to be tried.
    pub(crate) fn is_wanted(&self, now: u64) -> bool {
        self.wire.is_none() && now >= self.due && self.presence != Presence::Gone
    }

    /// A connection that was tried, if there could be one.
    pub(crate) fn begin(&mut self, wire: Option<Wire>, now: u64) {
        self.wire = wire;
        self.opened = now;
        self.due = now.saturating_add(AGAIN);
    }

    /// Goes on, where a member that isn't reached for so many milliseconds is gone.
    pub(crate) fn go_on(&mut self, now: u64, most: u64) {
        let came = match &mut self.wire {
            Some(wire) => wire.go_on(),
            None => Came::Open,
        };
        if came == Came::Open {
            self.see_whether_up(now);
        } else {
            self.lose(came, now);
        }
        if let Presence::Doubtful(since) = self.presence {
            if now.saturating_sub(since) >= most {
                self.presence = Presence::Gone;
            }
        }
    }

    fn see_whether_up(&mut self, now: u64) {
        let Some(wire) = &self.wire else {
            return;
        };
        if self.presence == Presence::There {
            return;
        }
        if wire.is_up() {
            self.presence = Presence::There;
            self.asked.clear();
            self.taken.clear();
        } else if now.saturating_sub(self.opened) >= CONNECTING {
            self.wire = None;
        }
    }

    fn lose(&mut self, came: Came, now: u64) {
        self.wire = None;
        match self.presence {
            Presence::There => self.presence = Presence::Doubtful(now),
            Presence::Doubtful(_) if came == Came::Refused => self.presence = Presence::Gone,
            _ => {}
        }
    }

    /// The connection, where the member is there.
    pub(crate) fn wire(&mut self) -> Option<&mut Wire> {
        match self.presence {
            Presence::There => self.wire.as_mut(),
            _ => None,
        }
    }

    /// The next line that it answered, without its end.
    pub(crate) fn next_answer(&mut self, alloc: Global) -> Option<String> {
        let wire = self.wire()?;
        let text = wire.text();
        let end = memchr(b'\n', text)?;
        let line = from_utf8(&text[..end]).unwrap_or("");
        let answer = String::from_str(alloc, line).ok();
        wire.forget_first(end.saturating_add(1));
        answer
    }
}
