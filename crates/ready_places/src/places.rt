use crate::key_queue::KeyQueue;
use slab::Slab;
use std::alloc::Global;
use std::marker::Model;

/// Values by their keys, and a queue of some of them. Room in the queue is made for a value when it gets its place, so
/// that it can be put there without memory.
#[derive(Drop)]
pub struct Places<T> {
    slab: Slab<T>,
    queue: KeyQueue,
}

impl<T> Model for Places<T> {
    ghost use Rattle.std.specs.Prelude.{ℕ, ◌≡◌, ◌<◌, true};
    ghost use Rattle.slab.specs.Slab.{ContainsKey};
    ghost use Rattle.ready_places.specs.Placed.{Placed};
    ghost use Rattle.ready_places.specs.Queue.{is_queued};

    ghost Value = { Placed T };

    ghost view = { λ p. record { values = p.slab; queue = p.queue.keys } };

    ghost invariant = { λ p. ((key : ℕ) → is_queued p.queue.keys key ≡ true → ContainsKey p.slab key)
        × ((key : ℕ) → ContainsKey p.slab key → key < p.queue.room) };
}

impl<T: Drop> Places<T> {
    ghost use Rattle.std.specs.Prelude.{ℕ, ◌≡◌, ◌+◌, ◌==◌, [], ◌∷◌, length, not, Some, None, true, false, IfNone, IfSome, OnSome};
    ghost use Rattle.std.specs.Borrow.{sem};
    ghost use Rattle.std.specs.Option.{option_copied, option_copied_mut};
    ghost use Rattle.slab.specs.Slab.{slab_len, Updates};
    ghost use Rattle.ready_places.specs.Lends.{LendsPlace, LendsValue};
    ghost use Rattle.ready_places.specs.Placed.{placed_at, HasPlace};
    ghost use Rattle.ready_places.specs.Queue.{first_of, is_queued, with_key_first, with_key_last};

    /// No value.
    pub fn new(alloc: Global) -> Places<T>
        ensures none { (key : ℕ) → placed_at result key ≡ None }
        ensures len { slab_len result.values ≡ 0 }
        ensures queue { result.queue ≡ [] }
    {
        Places {
            slab: Slab::new(alloc),
            queue: KeyQueue::new(alloc),
        }
    }

    /// How many values there are.
    pub fn len(&self) -> usize
        ensures { result ≡ slab_len self.now.values }
    {
        self.slab.len()
    }

    /// Whether there is no value.
    pub fn is_empty(&self) -> bool
        ensures { result ≡ (slab_len self.now.values == 0) }
    {
        self.slab.is_empty()
    }

    /// Whether a key stands in the queue.
    pub fn has_queued(&self) -> bool
        ensures { result ≡ not (length self.now.queue == 0) }
    {
        !self.queue.is_empty()
    }

    /// The key that the next value gets.
    pub fn vacant_key(&self) -> usize
        ensures value { result ≡ self.now.values.vacant_key }
        ensures vacant { placed_at self.now result ≡ None }
    {
        self.slab.vacant_key()
    }

    /// Gives a value a place, out of the queue. Says whether there was memory for it.
    pub fn insert(&mut self, value: T) -> bool
        ensures queue { self.new.queue ≡ self.old.queue }
        ensures placed { result ≡ true → Updates self.old.values self.new.values self.old.values.vacant_key (Some value) }
        ensures out { result ≡ true → is_queued self.new.queue self.old.values.vacant_key ≡ false }
        ensures len { result ≡ true → slab_len self.new.values ≡ slab_len self.old.values + 1 }
        ensures want { result ≡ false → self.new.values ≡ record self.old.values { capacity = self.new.values.capacity } }
    {
        let key = self.slab.vacant_key();
        if self.queue.reserve(key).is_err() {
            return false;
        }
        self.slab.insert(value).is_ok()
    }

    /// The value of a key.
    pub fn get(&self, key: usize) -> Option<&T>
        ensures { option_copied result ≡ placed_at self.now key }
    {
        self.slab.get(key)
    }

    /// The value of a key, to be changed.
    pub fn get_mut(&mut self, key: usize) -> Option<&mut T>
        ensures* writes_back { sem 𝓛 (LendsPlace T.row self.entry key result) }
        ensures value { option_copied_mut result ≡ placed_at self.old key }
    {
        if self.slab.contains(key) {
            Some(self.value_mut(key))
        } else {
            None
        }
    }

    fn value_mut(&mut self, key: usize) -> &mut T
        requires place { HasPlace self.old key }
        ensures* writes_back { sem 𝓛 (LendsValue T.row self.entry key result) }
        ensures value { placed_at self.old key ≡ Some result.now }
    {
        &mut self.slab[key]
    }

    /// Takes a value that doesn't stand in the queue out of its place.
    pub fn remove(&mut self, key: usize) -> Option<T>
        requires out { is_queued self.old.queue key ≡ false }
        ensures value { result ≡ placed_at self.old key }
        ensures queue { self.new.queue ≡ self.old.queue }
        ensures gone { Updates self.old.values self.new.values key None }
        ensures len { OnSome result (slab_len self.new.values + 1 ≡ slab_len self.old.values) }
        ensures none { IfNone result (self.new ≡ self.old) }
    {
        self.slab.try_remove(key)
    }

    /// Puts the value of a key at the head of the queue, unless it stands in it. Says whether it did.
    pub fn put_first(&mut self, key: usize) -> bool
        ensures values { self.new.values ≡ self.old.values }
        ensures put { HasPlace self.old key → self.new.queue ≡ with_key_first self.old.queue key }
        ensures none { placed_at self.old key ≡ None → self.new.queue ≡ self.old.queue }
        ensures says { HasPlace self.old key → result ≡ not (is_queued self.old.queue key) }
    {
        self.slab.contains(key) && self.queue.put_first(key)
    }

    /// Puts the value of a key at the end of the queue, unless it stands in it.
    pub fn put_last(&mut self, key: usize)
        ensures values { self.new.values ≡ self.old.values }
        ensures put { HasPlace self.old key → self.new.queue ≡ with_key_last self.old.queue key }
        ensures none { placed_at self.old key ≡ None → self.new.queue ≡ self.old.queue }
    {
        if self.slab.contains(key) {
            self.queue.put_last(key);
        }
    }

    /// The key at the head of the queue. It has a place.
    pub fn first(&self) -> Option<usize>
        ensures first { result ≡ first_of self.now.queue }
        ensures placed { IfSome result (HasPlace self.now) }
    {
        self.queue.first()
    }

    /// Takes the key at the head of the queue. It has a place, and stands in the queue no more.
    pub fn take_first(&mut self) -> Option<usize>
        ensures values { self.new.values ≡ self.old.values }
        ensures none { IfNone result (self.old.queue ≡ []) }
        ensures taken { IfSome result (λ key. self.old.queue ≡ key ∷ self.new.queue) }
        ensures once { IfSome result (λ key. is_queued self.new.queue key ≡ false) }
        ensures placed { IfSome result (λ key. HasPlace self.old key) }
    {
        self.queue.take_first()
    }
}
