use group_types::CALLERS;
use std::alloc::{AllocError, Global};
use std::collections::VecDeque;

/// Where a call stands for its gateway.
#[derive(Clone, Copy, PartialEq, Eq)]
pub(crate) enum Phase {
    /// There is none, or it waits for an answer.
    Waits,
    /// It is to be asked or traced.
    ToAsk,
    /// It is to be asked or traced once something happened at the member.
    Rests,
    /// It waits to be shown.
    Answered,
}

/// A call for its gateway: whose turn it was when it began, the hash of its key, and where it stands.
#[derive(Clone, Copy)]
pub(crate) struct CallNote {
    pub(crate) key: usize,
    pub(crate) hash: u32,
    pub(crate) phase: Phase,
}

/// The calls of a member's callers, by their numbers in the group, and those that are to be asked.
#[derive(Drop)]
pub(crate) struct Calls {
    notes: Vec<CallNote>,
    to_ask: VecDeque<u32>,
    resting: VecDeque<u32>,
    stirred: bool,
}

impl Calls {
    pub(crate) fn new(alloc: Global) -> Result<Calls, AllocError> {
        let none = CallNote {
            key: 0,
            hash: 0,
            phase: Phase::Waits,
        };
        Ok(Calls {
            notes: vec![in alloc; none; CALLERS as usize]?,
            to_ask: VecDeque::with_capacity(alloc, CALLERS as usize)?,
            resting: VecDeque::with_capacity(alloc, CALLERS as usize)?,
            stirred: false,
        })
    }

    pub(crate) fn note(&self, caller: u32) -> Option<CallNote> {
        self.notes.get(caller as usize).copied()
    }

    pub(crate) fn phase(&self, caller: u32) -> Phase {
        self.note(caller).map_or(Phase::Waits, |note| note.phase)
    }

    /// A call begins, of a connection and of a key with this hash: it is to be asked.
    pub(crate) fn begin(&mut self, caller: u32, key: usize, hash: u32) {
        if let Some(note) = self.notes.get_mut(caller as usize) {
            note.key = key;
            note.hash = hash;
            note.phase = Phase::Waits;
        }
        self.to_ask(caller);
    }

    /// A call stands elsewhere.
    pub(crate) fn put(&mut self, caller: u32, phase: Phase) {
        if let Some(note) = self.notes.get_mut(caller as usize) {
            note.phase = phase;
        }
    }

    /// A call is to be asked. Each stands once in a list, within the room that was made at the start.
    pub(crate) fn to_ask(&mut self, caller: u32) {
        if !matches!(self.phase(caller), Phase::ToAsk | Phase::Rests) {
            self.put(caller, Phase::ToAsk);
            let _ = self.to_ask.push_back(caller);
        }
    }

    /// A call that is to be asked rests until something happens.
    pub(crate) fn rest(&mut self, caller: u32) {
        if !matches!(self.phase(caller), Phase::ToAsk | Phase::Rests) {
            self.put(caller, Phase::Rests);
            let _ = self.resting.push_back(caller);
        }
    }

    /// Something settled, a death was taken, or a block or a row came.
    pub(crate) fn stir(&mut self) {
        self.stirred = true;
    }

    /// How many calls are to be asked.
    pub(crate) fn asks(&self) -> usize {
        self.to_ask.len()
    }

    /// Whether calls that rest can be asked.
    pub(crate) fn can_go_on(&self) -> bool {
        self.stirred && !self.resting.is_empty()
    }

    /// How many calls rest, where something happened since they were asked last.
    pub(crate) fn begin_pass(&mut self) -> usize {
        let stirred = self.stirred;
        self.stirred = false;
        if stirred { self.resting.len() } else { 0 }
    }

    /// The next call that is to be asked.
    pub(crate) fn next_ask(&mut self) -> Option<u32> {
        let caller = self.to_ask.pop_front()?;
        self.put(caller, Phase::Waits);
        Some(caller)
    }

    /// The next call that rests, unless one before it that rests on, behind so many, has its key: then it rests on.
    pub(crate) fn next_resting(&mut self, left: usize) -> Option<u32> {
        let caller = self.resting.pop_front()?;
        self.put(caller, Phase::Waits);
        if self.has_key_behind(caller, left) {
            self.rest(caller);
            return None;
        }
        Some(caller)
    }

    // Whether one that rests behind so many has the key of a caller's call.
    fn has_key_behind(&self, caller: u32, left: usize) -> bool {
        let hash = self.note(caller).map(|note| note.hash);
        'resting: for place in left..self.resting.len() {
            let other = self.resting.get(place).copied();
            if other
                .and_then(|other| self.note(other))
                .map(|note| note.hash)
                == hash
            {
                return true;
            }
        }
        false
    }
}
