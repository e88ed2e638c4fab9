use crate::free_callers::FreeCallers;
use crate::kind::Kind;
use crate::places::{Place, Places};
use crate::queue::{Queue, Waiter};
use std::alloc::{AllocError, Global};
use std::collections::VecDeque;

/// How long a caller stays offered to a connection that has no turn, in milliseconds: it may be gone.
const PATIENCE: u64 = 100;

/// A caller that is offered to a connection, since a moment.
#[derive(Clone, Copy)]
struct Offer {
    waiter: Waiter,
    since: u64,
}

/// Who waits for a caller: connections whose turns are told, gets and changes each first come first. A caller that comes
/// free is offered to the first of those that may have it, and kept for it until its turn.
#[derive(Drop)]
pub(crate) struct Waiting {
    callers: FreeCallers,
    places: Places,
    gets: Queue,
    changes: Queue,
    offers: VecDeque<Offer>,
    woken: VecDeque<usize>,
    next: u64,
    turn: usize,
    has_asked: bool,
    now: u64,
}

impl Waiting {
    /// Nobody waits for one of so many callers from the first.
    pub(crate) fn new(alloc: Global, first: u32, each: u32) -> Result<Waiting, AllocError> {
        Ok(Waiting {
            callers: FreeCallers::new(alloc, first, each)?,
            places: Places::new(alloc),
            gets: Queue::new(alloc),
            changes: Queue::new(alloc),
            offers: VecDeque::with_capacity(alloc, each as usize)?,
            woken: VecDeque::with_capacity(alloc, each as usize)?,
            next: 0,
            turn: 0,
            has_asked: true,
            now: 0,
        })
    }

    /// The connection whose turn it is.
    pub(crate) fn turn(&self) -> usize {
        self.turn
    }

    /// A connection has its turn. The last that had one and asked for no caller waits for none.
    pub(crate) fn turn_of(&mut self, key: usize) {
        self.end_turn();
        self.turn = key;
        self.has_asked = false;
    }

    /// It is so late now: who was offered a caller long ago waits no more.
    pub(crate) fn pass(&mut self, now: u64) {
        self.now = now;
        self.end_turn();
        'offers: for _ in 0..self.offers.len() {
            if !self.ends_first_offer() {
                break 'offers;
            }
        }
        self.offer_all();
    }

    /// A caller for the connection whose turn it is. Where none is free for it, it waits behind those that do.
    pub(crate) fn take(&mut self, kind: Kind) -> Result<Option<u32>, AllocError> {
        self.has_asked = true;
        match self.places.at(self.turn) {
            Place::Waits(_) => return Ok(None),
            Place::Offered(_, offered) => self.end_offer(self.turn, offered),
            Place::Nowhere => {
                if !self.callers.has_for(kind) {
                    return self.wait(kind);
                }
            }
        }
        Ok(self.callers.take(kind))
    }

    /// A caller is free again.
    pub(crate) fn give_back(&mut self, caller: u32, kind: Kind) {
        self.callers.give_back(caller, kind);
        self.offer_all();
    }

    /// The next connection that a caller is offered to.
    pub(crate) fn next_woken(&mut self) -> Option<usize> {
        self.woken.pop_front()
    }

    fn end_turn(&mut self) {
        if self.has_asked {
            return;
        }
        self.has_asked = true;
        self.leave(self.turn);
        self.offer_all();
    }

    // A connection waits no more.
    fn leave(&mut self, key: usize) {
        match self.places.at(key) {
            Place::Nowhere => {}
            Place::Waits(_) => self.places.put(key, Place::Nowhere),
            Place::Offered(_, kind) => self.end_offer(key, kind),
        }
    }

    fn end_offer(&mut self, key: usize, kind: Kind) {
        self.places.put(key, Place::Nowhere);
        self.callers.end_offer(kind);
    }

    fn wait(&mut self, kind: Kind) -> Result<Option<u32>, AllocError> {
        self.places.reserve(self.turn)?;
        let waiter = Waiter {
            key: self.turn,
            number: self.next,
        };
        match kind {
            Kind::Get => self.gets.push(waiter)?,
            Kind::Change => self.changes.push(waiter)?,
        }
        self.next = self.next.wrapping_add(1);
        self.places.put(waiter.key, Place::Waits(waiter.number));
        Ok(None)
    }

    // Offers callers to those that wait, as long as one may have one.
    fn offer_all(&mut self) {
        if self.gets.is_empty() && self.changes.is_empty() {
            return;
        }
        'callers: for _ in 0..self.callers.left() {
            let Some(kind) = self.next_kind() else {
                return;
            };
            if !self.offer_next(kind) {
                return;
            }
        }
    }

    // Of which kind the first is that may have a caller.
    fn next_kind(&mut self) -> Option<Kind> {
        let get = self.gets.first(&self.places);
        let change = self.changes.first(&self.places);
        let get = get.filter(|_| self.callers.has_for(Kind::Get));
        let change = change.filter(|_| self.callers.has_for(Kind::Change));
        match (get, change) {
            (None, None) => None,
            (Some(_), None) => Some(Kind::Get),
            (None, Some(_)) => Some(Kind::Change),
            (Some(get), Some(change)) if get < change => Some(Kind::Get),
            (Some(_), Some(_)) => Some(Kind::Change),
        }
    }

    // Whether a caller was offered to the first of a kind: that takes memory.
    fn offer_next(&mut self, kind: Kind) -> bool {
        if self.offers.reserve(1).is_err() || self.woken.reserve(1).is_err() {
            return false;
        }
        let next = match kind {
            Kind::Get => self.gets.pop(),
            Kind::Change => self.changes.pop(),
        };
        let Some(waiter) = next else {
            return false;
        };
        self.callers.offer(kind);
        self.places
            .put(waiter.key, Place::Offered(waiter.number, kind));
        let since = self.now;
        let _ = self.offers.push_back(Offer { waiter, since });
        let _ = self.woken.push_back(waiter.key);
        true
    }

    // Whether the oldest offer is over, and let go.
    fn ends_first_offer(&mut self) -> bool {
        let Some(offer) = self.offers.front().copied() else {
            return false;
        };
        match self.places.at(offer.waiter.key) {
            Place::Offered(number, kind) if number == offer.waiter.number => {
                if self.now.saturating_sub(offer.since) < PATIENCE {
                    return false;
                }
                self.end_offer(offer.waiter.key, kind);
            }
            _ => {}
        }
        let _ = self.offers.pop_front();
        true
    }
}
