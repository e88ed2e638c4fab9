use crate::places::{Place, Places};
use std::alloc::{AllocError, Global};
use std::collections::VecDeque;

/// A connection that came to wait for a caller as this one of all that did.
#[derive(Clone, Copy)]
pub(crate) struct Waiter {
    pub(crate) key: usize,
    pub(crate) number: u64,
}

/// Connections that wait for a caller, first come first.
#[derive(Drop)]
pub(crate) struct Queue {
    waiters: VecDeque<Waiter>,
}

impl Queue {
    pub(crate) fn new(alloc: Global) -> Queue {
        Queue {
            waiters: VecDeque::new(alloc),
        }
    }

    pub(crate) fn is_empty(&self) -> bool {
        self.waiters.is_empty()
    }

    pub(crate) fn push(&mut self, waiter: Waiter) -> Result<(), AllocError> {
        self.waiters.push_back(waiter)?;
        Ok(())
    }

    /// The number of the first that still waits.
    pub(crate) fn first(&mut self, places: &Places) -> Option<u64> {
        'gone: for _ in 0..self.waiters.len() {
            let waiter = self.waiters.front().copied()?;
            if places.at(waiter.key) == Place::Waits(waiter.number) {
                return Some(waiter.number);
            }
            let _ = self.waiters.pop_front();
        }
        None
    }

    pub(crate) fn pop(&mut self) -> Option<Waiter> {
        self.waiters.pop_front()
    }
}
