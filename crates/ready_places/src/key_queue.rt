use std::alloc::{AllocError, Global};
use std::collections::VecDeque;
use std::marker::Model;

/// Keys in the order in which they are to be taken, each once. A key within its room is put without memory.
#[derive(Drop)]
pub struct KeyQueue {
    keys: VecDeque<usize>,
    marks: Vec<bool>,
}

impl Model for KeyQueue {
    ghost use Rattle.std.specs.Prelude.{vec_len};
    ghost use Rattle.std.specs.VecDeque.{deque_capacity};
    ghost use Rattle.ready_places.specs.Queue.{MarksKeys, Queued};

    ghost Value = { Queued };

    ghost view = { λ q. record { keys = q.keys.items; room = vec_len q.marks } };

    ghost invariant = { λ q. MarksKeys q.keys.items q.marks.items (deque_capacity q.keys) };
}

impl KeyQueue {
    ghost use Rattle.std.specs.Prelude.{◌≡◌, ◌<◌, ◌≤◌, [], ◌∷◌, ◌==◌, length, not, false, IfNone, IfSome, OnOk};
    ghost use Rattle.ready_places.specs.Queue.{first_of, is_queued, with_key_first, with_key_last};

    /// No key, and room for none.
    pub fn new(alloc: Global) -> KeyQueue
        ensures keys { result.keys ≡ [] }
        ensures room { result.room ≡ 0 }
    {
        KeyQueue {
            keys: VecDeque::new(alloc),
            marks: Vec::new(alloc),
        }
    }

    /// Makes room for a key, and for those below it.
    pub fn reserve(&mut self, key: usize) -> Result<(), AllocError>
        ensures keys { self.new.keys ≡ self.old.keys }
        ensures kept { self.old.room ≤ self.new.room }
        ensures room { OnOk result (key < self.new.room) }
    {
        let Some(room) = key.checked_add(1) else {
            return Err(AllocError);
        };
        let missing = room.saturating_sub(self.keys.len());
        self.keys.reserve(missing)?;
        if room > self.marks.len() {
            self.marks.resize(room, false)?;
        }
        Ok(())
    }

    /// Whether no key stands in it.
    pub fn is_empty(&self) -> bool
        ensures { result ≡ (length self.now.keys == 0) }
    {
        self.keys.is_empty()
    }

    /// Puts a key at the head, unless it stands in the queue. Says whether it did.
    pub fn put_first(&mut self, key: usize) -> bool
        requires room { key < self.old.room }
        ensures keys { self.new.keys ≡ with_key_first self.old.keys key }
        ensures put { result ≡ not (is_queued self.old.keys key) }
        ensures same { self.new.room ≡ self.old.room }
    {
        if self.marks[key] {
            return false;
        }
        self.marks[key] = true;
        match self.keys.push_front(key) {
            Ok(()) => true,
            Err(_) => unreachable!(),
        }
    }

    /// Puts a key at the end, unless it stands in the queue.
    pub fn put_last(&mut self, key: usize)
        requires room { key < self.old.room }
        ensures keys { self.new.keys ≡ with_key_last self.old.keys key }
        ensures same { self.new.room ≡ self.old.room }
    {
        if self.marks[key] {
            return;
        }
        self.marks[key] = true;
        match self.keys.push_back(key) {
            Ok(()) => {}
            Err(_) => unreachable!(),
        }
    }

    /// The key at the head.
    pub fn first(&self) -> Option<usize>
        ensures { result ≡ first_of self.now.keys }
    {
        self.keys.front().copied()
    }

    /// Takes the key at the head. It stands in the queue no more.
    pub fn take_first(&mut self) -> Option<usize>
        ensures none { IfNone result (self.old.keys ≡ []) }
        ensures taken { IfSome result (λ key. self.old.keys ≡ key ∷ self.new.keys) }
        ensures once { IfSome result (λ key. is_queued self.new.keys key ≡ false) }
        ensures kept { IfNone result (self.new ≡ self.old) }
        ensures same { self.new.room ≡ self.old.room }
    {
        let key = self.keys.pop_front()?;
        self.marks[key] = false;
        Some(key)
    }
}
