//! An index of items: a finite map from keys to slots, with a set of keys that are ready.
//! Its contract says what a look-up of each key gives after each call, and that an entry is put at a
//! ready key without memory. What a slot refers to is left to the caller.
#![tactic(auto)]

ghost use Rattle.std.specs.Prelude.{true, ◌≡◌, [], IsTrue, IsSome, IfOk, IsOk, OnOk, OnErr, ◌||◌, ◌&&◌, not, is_some, Some, None, if◌then◌else◌};
ghost use Rattle.std.specs.List.{IsDistinct};
ghost use Rattle.std.specs.Map.{keys_of};
ghost use Rattle.item_index.specs.Keys.{entry_slot, is_ready, entry_count, IsListing, CopiesEqual};

use indexmap::IndexMap;
pub use list::SlotList;
use place::Place;
pub use slot::Slot;
use std::alloc::{AllocError, Global};
use std::hash::Hash;
use std::marker::Model;

mod list;
mod place;
mod slot;

/// Items by key. A key that has an entry is ready.
#[derive(Debug, Drop)]
pub struct Index<K: Eq + Hash> {
    slots: IndexMap<K, Place>,
    alloc: Global,
}

impl<K: Eq + Hash> Model for Index<K> {
    ghost use Rattle.std.specs.Prelude.{List, Option};
    ghost use Rattle.item_index.specs.declared.slot.Slot.{Slot};

    ghost Value = { List (K × Option Slot) };

    ghost view = { λ index. index.slots.entries };
}

impl<K: Eq + Hash + Clone> Index<K> {
    /// No entries, and no key is ready.
    pub fn new(alloc: Global) -> Self
        ensures { result ≡ [] }
    {
        Self {
            slots: IndexMap::new(alloc),
            alloc,
        }
    }

    /// The entry of the key.
    pub fn get(&self, key: &K) -> Option<Slot>
        ensures { result ≡ entry_slot K.eq self.now key.now }
    {
        self.slots.get(key)?.slot()
    }

    /// Makes the key ready.
    pub fn prepare(&mut self, key: &K) -> Result<(), AllocError>
        requires copies { CopiesEqual K.is_clone }
        ensures slots { (q : K) → entry_slot K.eq self.new q ≡ entry_slot K.eq self.old q }
        ensures ready { OnOk result ((q : K) → is_ready K.eq self.new q ≡ (K.eq key.now q || is_ready K.eq self.old q)) }
        ensures err { OnErr result (self.new ≡ self.old) }
        ensures succeeds { is_ready K.eq self.old key.now ≡ true → IsOk result }
    {
        if !self.slots.contains_key(key) {
            self.slots.insert(key.clone()?, Place::empty())?;
        }
        Ok(())
    }

    /// Gives the key this entry. It takes no memory.
    pub fn put(&mut self, key: &K, slot: Slot)
        requires { is_ready K.eq self.old key.now ≡ true }
        ensures slots { (q : K) → entry_slot K.eq self.new q ≡ (if K.eq key.now q then Some slot else entry_slot K.eq self.old q) }
        ensures ready { (q : K) → is_ready K.eq self.new q ≡ is_ready K.eq self.old q }
    {
        match self.slots.get_mut(key) {
            Some(place) => *place = Place::of(slot),
            None => unreachable!(),
        }
    }

    /// Takes the entry of the key away. A ready key stays ready.
    pub fn remove(&mut self, key: &K)
        ensures slots { (q : K) → entry_slot K.eq self.new q ≡ (if K.eq key.now q then None else entry_slot K.eq self.old q) }
        ensures ready { (q : K) → is_ready K.eq self.new q ≡ is_ready K.eq self.old q }
    {
        if let Some(place) = self.slots.get_mut(key) {
            *place = Place::empty();
        }
    }

    /// Ends the readiness of the key where it has no entry.
    pub fn tidy(&mut self, key: &K)
        ensures slots { (q : K) → entry_slot K.eq self.new q ≡ entry_slot K.eq self.old q }
        ensures ready { (q : K) → is_ready K.eq self.new q
            ≡ (if K.eq key.now q then is_some (entry_slot K.eq self.old q) else is_ready K.eq self.old q) }
    {
        if self.get(key).is_none() {
            self.slots.swap_remove(key);
        }
    }

    /// How many keys have an entry, counted one by one.
    pub fn count(&self) -> usize
        ensures count { result ≡ entry_count self.now }
        ensures once { IsDistinct K.eq (keys_of self.now) }
    {
        self.slots
            .iter()
            .filter(|(_, place)| place.is_some())
            .count()
    }

    /// A copy of all entries.
    pub fn entries(&self) -> Result<SlotList<K>, AllocError>
        requires copies { CopiesEqual K.is_clone }
        ensures { IfOk result (IsListing K.eq self.now) }
    {
        let mut pairs = Vec::new(self.alloc);
        'pairs: for (key, place) in self.slots.iter() {
            if let Some(slot) = place.slot() {
                pairs.push((key.clone()?, slot))?;
            }
        }
        Ok(SlotList::new(pairs))
    }
}
