//! A log of updates with consecutive numbers, above the number up to which they are applied.
//! Its contract says which updates the log holds after each call, and how many more it takes without
//! memory. What an update does is left to the caller.
#![tactic(auto)]

ghost use Rattle.std.specs.Prelude.{◌≡◌, ℕ, ◌+◌, ◌-◌, ◌<◌, ◌≤◌, ◌^◌, ◌==◌, max, [], ◌∷◌, ◌++◌, length, drop, find, IfSome, IfNone, IsOk, OnOk, OnErr, option_copied};
ghost use Rattle.std.specs.Option.{option_map};
ghost use Rattle.std.specs.VecDeque.Iter.{deque_iter_rest, deque_iter_steps};
ghost use Rattle.std.specs.Iterator.Runs.{YieldsRefsInOrder};
ghost use Rattle.request_log.specs.Logged.{last_number, find_last, IsNumbered};

pub use numbering::Numbering;
use std::alloc::{AllocError, Global};
use std::collections::{VecDeque, vec_deque};
use std::marker::Model;
use std::mem;
pub use taken::Taken;

mod numbering;
mod taken;

/// The updates above the applied number, in the order of their numbers.
#[derive(Drop)]
pub struct Log<N: Numbering> {
    updates: VecDeque<N::Item>,
    applied: u64,
    spare: usize,
}

impl<N: Numbering> Model for Log<N> {
    ghost use Rattle.std.specs.Prelude.{ℕ, ◌+◌, ◌≤◌};
    ghost use Rattle.std.specs.VecDeque.{deque_len, deque_capacity};
    ghost use Rattle.request_log.specs.Logged.{IsNumbered, LogState};

    ghost Value = { LogState N.Item };

    ghost view = { λ log. record { applied = log.applied; updates = log.updates.items; spare = log.spare } };

    ghost invariant = { λ log. (deque_len log.updates + log.spare ≤ deque_capacity log.updates) × IsNumbered N.number_of log.applied log.updates.items };
}

impl<N: Numbering> Log<N> {
    /// An empty log, with nothing applied.
    pub fn new(alloc: Global) -> Self
        ensures applied { result.applied ≡ 0 }
        ensures updates { result.updates ≡ [] }
        ensures spare { result.spare ≡ 0 }
    {
        Self {
            updates: VecDeque::new(alloc),
            applied: 0,
            spare: 0,
        }
    }

    /// Makes room for `n` updates.
    pub fn reserve(&mut self, n: usize) -> Result<(), AllocError>
        ensures applied { self.new.applied ≡ self.old.applied }
        ensures updates { self.new.updates ≡ self.old.updates }
        ensures ok { OnOk result (self.new.spare ≡ max self.old.spare n) }
        ensures err { OnErr result (self.new.spare ≡ self.old.spare) }
        ensures succeeds { n ≤ self.old.spare → IsOk result }
    {
        self.updates.reserve(n)?;
        self.spare = self.spare.max(n);
        Ok(())
    }

    /// Adds an update at the end. It takes no memory.
    pub fn push(&mut self, update: N::Item)
        requires next { N.number_of update ≡ last_number self.old + 1 }
        requires room { 0 < self.old.spare }
        ensures applied { self.new.applied ≡ self.old.applied }
        ensures updates { self.new.updates ≡ self.old.updates ++ update ∷ [] }
        ensures spare { self.new.spare ≡ self.old.spare - 1 }
    {
        self.spare -= 1;
        match self.updates.push_back(update) {
            Ok(()) => {}
            Err(_) => unreachable!(),
        }
    }

    /// The number up to which updates are applied.
    pub fn applied(&self) -> u64
        ensures applied { result ≡ self.now.applied }
        ensures numbered { IsNumbered N.number_of self.now.applied self.now.updates }
    {
        self.applied
    }

    /// The number of the last update, or the applied number where the log is empty.
    pub fn last(&self) -> u64
        ensures last { result ≡ last_number self.now }
        ensures numbered { IsNumbered N.number_of self.now.applied self.now.updates }
    {
        match self.updates.back() {
            Some(update) => N::number(update),
            None => self.applied,
        }
    }

    /// How many updates there are above the applied number.
    pub fn len(&self) -> usize
        ensures len { result ≡ length self.now.updates }
        ensures few { result < 2 ^ 63 }
    {
        self.updates.len()
    }

    /// Hands out the first update, which is then applied.
    pub fn apply_next(&mut self) -> Option<N::Item>
        ensures updates { IfSome result (λ update. self.old.updates ≡ update ∷ self.new.updates) }
        ensures applied { IfSome result (λ _. self.new.applied ≡ self.old.applied + 1) }
        ensures number { IfSome result (λ update. self.new.applied ≡ N.number_of update) }
        ensures empty { IfNone result (self.old.updates ≡ []) }
        ensures none { IfNone result (self.new ≡ self.old) }
        ensures spare { self.new.spare ≡ self.old.spare }
    {
        let update = self.updates.pop_front()?;
        self.applied = N::number(&update);
        Some(update)
    }

    /// Replaces the updates by those of `list` that are above the applied number, and hands back the
    /// ones that stood here. The numbers of `list` run from `base + 1` on. It leaves no room.
    pub fn adopt(&mut self, base: u64, list: Taken<N::Item>) -> Taken<N::Item>
        requires base { base ≤ self.old.applied }
        requires numbers { IsNumbered N.number_of base list }
        requires reach { self.old.applied ≤ base + length list }
        ensures applied { self.new.applied ≡ self.old.applied }
        ensures updates { self.new.updates ≡ drop (self.old.applied - base) list }
        ensures handed { result ≡ self.old.updates }
        ensures spare { self.new.spare ≡ 0 }
    {
        let mut kept = VecDeque::from_vec(list.into_vec());
        'applied: for _ in base..self.applied {
            kept.pop_front();
        }
        self.spare = 0;
        Taken::new(mem::replace(&mut self.updates, kept).into_vec())
    }

    /// The update of this number, if the log has it.
    pub fn get(&self, number: u64) -> Option<&N::Item>
        ensures { option_copied result ≡ find (λ update. N.number_of update == number) self.now.updates }
    {
        if number <= self.applied {
            return None;
        }
        self.updates.get((number - self.applied - 1) as usize)
    }

    /// The number of the last update on this key, if there is one.
    pub fn holds_key(&self, key: &N::Key) -> Option<u64>
        ensures { result ≡ option_map N.number_of (find_last (λ update. N.Key.eq (N.key_of update) key.now) self.now.updates) }
    {
        'updates: for index in (0..self.updates.len()).rev() {
            let update = &self.updates[index];
            if N::key(update) == key {
                return Some(N::number(update));
            }
        }
        None
    }

    /// The updates in the order of their numbers.
    pub fn iter(&self) -> vec_deque::Iter<'_, N::Item>
        ensures rest { deque_iter_rest result ≡ self.now.updates }
        ensures runs { YieldsRefsInOrder (deque_iter_steps {X = N.Item}) deque_iter_rest }
        ensures numbered { IsNumbered N.number_of self.now.applied self.now.updates }
    {
        self.updates.iter()
    }
}
