use crate::sets::{has, many, with, without};
use group_types::{CALLERS, Shape};
use std::alloc::{AllocError, Global};
use std::collections::VecDeque;

/// How long an answer waits for those that were pinged first, in milliseconds: then all others are.
const PATIENCE: u64 = 5;

/// A call that was answered when so many pings had been sent, and since when it waits to be shown.
#[derive(Clone, Copy)]
pub(crate) struct Answered {
    pub(crate) caller: u32,
    pub(crate) pinged: u64,
    pub(crate) since: u64,
}

/// The pings of a member: how many were sent, on which links one is under way, how many each process has answered and
/// how many enough have, and the answers that wait for that.
#[derive(Drop)]
pub(crate) struct Fence {
    shape: Shape,
    own: u32,
    pinged: u64,
    confirmed: u64,
    under_way: u32,
    ponged: Vec<u64>,
    answered: VecDeque<Answered>,
}

impl Fence {
    /// No ping was sent by the process at an index.
    pub(crate) fn new(alloc: Global, shape: Shape, own: u32) -> Result<Fence, AllocError> {
        Ok(Fence {
            shape,
            own,
            pinged: 0,
            confirmed: 0,
            under_way: 0,
            ponged: vec![in alloc; 0; many(shape) as usize]?,
            answered: VecDeque::with_capacity(alloc, CALLERS as usize)?,
        })
    }

    /// How many pings were sent.
    pub(crate) fn pinged(&self) -> u64 {
        self.pinged
    }

    /// How many pings enough have answered.
    pub(crate) fn confirmed(&self) -> u64 {
        self.confirmed
    }

    /// The answer that waits longest to be shown.
    pub(crate) fn oldest(&self) -> Option<Answered> {
        self.answered.front().copied()
    }

    /// How many answers wait to be shown.
    pub(crate) fn unshown(&self) -> usize {
        self.answered.len()
    }

    /// A call was answered. It takes no memory within the room that was made at the start.
    pub(crate) fn note(&mut self, answered: Answered) {
        let _ = self.answered.push_back(answered);
    }

    /// The next answer that can be shown, which no longer waits.
    pub(crate) fn next_shown(&mut self) -> Option<Answered> {
        let first = self.oldest()?;
        if self.confirmed <= first.pinged {
            return None;
        }
        self.answered.pop_front()
    }

    /// Nothing more comes from a process.
    pub(crate) fn cut(&mut self, x: u32) {
        self.under_way = without(self.under_way, x);
    }

    /// A ping went to a set.
    pub(crate) fn sent(&mut self, to: u32) {
        self.pinged = self.pinged.saturating_add(1);
        self.under_way |= to;
    }

    /// A process answered the ping of a number.
    pub(crate) fn count(&mut self, x: u32, ping: u64) {
        self.under_way = without(self.under_way, x);
        if let Some(last) = self.ponged.get_mut(x as usize) {
            *last = (*last).max(ping.saturating_add(1));
        }
    }

    /// How many pings a process has answered.
    pub(crate) fn ponged(&self, x: u32) -> u64 {
        self.ponged.get(x as usize).copied().unwrap_or(0)
    }

    /// So many pings are answered by enough.
    pub(crate) fn confirm(&mut self, count: u64) {
        self.confirmed = self.confirmed.max(count);
    }

    /// Whom the next ping goes to, of those that aren't cut, if one is due.
    pub(crate) fn due(&self, uncut: u32, now: u64) -> Option<u32> {
        let idle = without(uncut, self.own) & !self.under_way;
        if self.is_needed() && self.pinged <= self.confirmed {
            return Some(self.first_of(idle));
        }
        let oldest = self.oldest()?;
        if now.saturating_sub(oldest.since) < PATIENCE {
            return None;
        }
        let late = self.behind(idle, oldest.pinged);
        if late == 0 {
            return None;
        }
        Some(late)
    }

    // Whether an answer came since the last ping.
    fn is_needed(&self) -> bool {
        self.answered
            .back()
            .is_some_and(|last| self.pinged <= last.pinged)
    }

    // The first m + 1 of a set behind this process, in the order of processes.
    fn first_of(&self, set: u32) -> u32 {
        let (many, mut left, mut first) = (many(self.shape), self.shape.m() + 1, 0);
        'others: for step in 1..many {
            let x = self.own.wrapping_add(step) % many;
            if left > 0 && has(set, x) {
                first = with(first, x);
                left -= 1;
            }
        }
        first
    }

    // Those of a set that haven't answered the ping of a number.
    fn behind(&self, set: u32, ping: u64) -> u32 {
        let mut behind = 0;
        'others: for x in 0..many(self.shape) {
            if has(set, x) && self.ponged(x) <= ping {
                behind = with(behind, x);
            }
        }
        behind
    }
}
