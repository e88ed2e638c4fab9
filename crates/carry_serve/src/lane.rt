use crate::wire::{Came, Wire};
use std::alloc::{AllocError, Global};
use std::collections::VecDeque;

/// The most items that are asked for on a connection, and the most bytes that wait to be said on it.
const MOST_ASKED: usize = 64;

const MOST_UNSENT: usize = 1 << 18;

/// A connection to a gateway of one of both groups, on which items of one queue are asked for, one behind the other.
#[derive(Drop)]
pub(crate) struct Lane {
    wire: Option<Wire>,
    /// Which queue it serves.
    pub(crate) queue: usize,
    /// The index of the member that it reaches.
    pub(crate) member: usize,
    /// The places of the items that are asked for, in their order.
    asked: VecDeque<usize>,
    /// Whether something may be read or written.
    pub(crate) is_ready: bool,
    /// When it may be opened again, in milliseconds.
    pub(crate) due: u64,
    /// When something was heard last, or nothing was asked for.
    pub(crate) heard: u64,
}

impl Lane {
    /// A connection of a queue to a member, which isn't open.
    pub(crate) fn new(alloc: Global, queue: usize, member: usize) -> Lane {
        Lane {
            wire: None,
            queue,
            member,
            asked: VecDeque::new(alloc),
            is_ready: false,
            due: 0,
            heard: 0,
        }
    }

    /// Whether it is open.
    pub(crate) fn is_open(&self) -> bool {
        self.wire.is_some()
    }

    /// It is open.
    pub(crate) fn begin(&mut self, wire: Wire, now: u64) {
        self.wire = Some(wire);
        self.is_ready = true;
        self.heard = now;
    }

    /// It is no longer open.
    pub(crate) fn end(&mut self) {
        self.wire = None;
        self.is_ready = false;
    }

    /// Whether one more item may be asked for.
    pub(crate) fn has_room(&self) -> bool {
        match &self.wire {
            Some(wire) => self.asked.len() < MOST_ASKED && wire.unsent() < MOST_UNSENT,
            None => false,
        }
    }

    /// How many items are asked for.
    pub(crate) fn count_asked(&self) -> usize {
        self.asked.len()
    }

    /// Asks for the item at a place.
    pub(crate) fn ask(&mut self, at: usize, text: &[u8]) -> Result<(), AllocError> {
        self.asked.push_back(at)?;
        match &mut self.wire {
            Some(wire) => wire.say(text),
            None => Ok(()),
        }
    }

    /// The place of the item that is to be answered next.
    pub(crate) fn first(&self) -> Option<usize> {
        match self.asked.front() {
            Some(at) => Some(*at),
            None => None,
        }
    }

    /// That item, which is no longer asked for.
    pub(crate) fn take_first(&mut self) -> Option<usize> {
        self.asked.pop_front()
    }

    /// What came.
    pub(crate) fn text(&self) -> &[u8] {
        match &self.wire {
            Some(wire) => wire.text(),
            None => b"",
        }
    }

    /// Takes the first so many bytes that came.
    pub(crate) fn take(&mut self, count: usize) {
        if let Some(wire) = &mut self.wire {
            wire.take(count);
        }
    }

    /// Writes what is to be said.
    pub(crate) fn write_out(&mut self) {
        if let Some(wire) = &mut self.wire {
            if wire.write_out() == Came::Ended {
                self.is_ready = true;
            }
        }
    }

    /// Writes and reads. Says whether it is still open.
    pub(crate) fn go_on(&mut self) -> bool {
        let Some(wire) = &mut self.wire else {
            return true;
        };
        let came = wire.go_on();
        self.is_ready = came == Came::More;
        came != Came::Ended
    }
}
