ghost use Rattle.std.specs.Prelude.{◌≡◌, Some, None, is_some};

use crate::slot::Slot;
use std::marker::Model;

/// Whether a place holds a slot, and whether the slot's item ends.
#[derive(Clone, Copy, Debug, PartialEq, Eq)]
pub enum Kind {
    Free,
    Lasting,
    Ending,
}

/// Where an index keeps the slot of a ready key, or that it has none: an `Option<Slot>` without padding, in 32 bytes.
#[derive(Debug, Drop)]
pub struct Place {
    kind: Kind,
    at: u32,
    len: u32,
    flags: u32,
    cas: u64,
    until: u64,
}

impl Model for Place {
    ghost use Rattle.std.specs.Prelude.{Option};
    ghost use Rattle.item_index.specs.declared.slot.Slot.{Slot};
    ghost use Rattle.item_index.specs.Places.{slot_at};

    ghost Value = { Option Slot };

    ghost view = { slot_at };
}

impl Place {
    /// A place without a slot.
    pub fn empty() -> Place
        ensures { result ≡ None }
    {
        Place {
            kind: Kind::Free,
            at: 0,
            len: 0,
            flags: 0,
            cas: 0,
            until: 0,
        }
    }

    /// A place with this slot.
    pub fn of(slot: Slot) -> Place
        ensures { result ≡ Some slot }
    {
        let (kind, until) = match slot.until {
            Some(until) => (Kind::Ending, until),
            None => (Kind::Lasting, 0),
        };
        Place {
            kind,
            at: slot.at,
            len: slot.len,
            flags: slot.flags,
            cas: slot.cas,
            until,
        }
    }

    /// The slot.
    pub fn slot(&self) -> Option<Slot>
        ensures { result ≡ self.now }
    {
        let until = match self.kind {
            Kind::Free => return None,
            Kind::Lasting => None,
            Kind::Ending => Some(self.until),
        };
        Some(Slot {
            at: self.at,
            len: self.len,
            flags: self.flags,
            cas: self.cas,
            until,
        })
    }

    /// Whether there is a slot.
    pub fn is_some(&self) -> bool
        ensures { result ≡ is_some self.now }
    {
        match self.kind {
            Kind::Free => false,
            Kind::Lasting | Kind::Ending => true,
        }
    }
}
