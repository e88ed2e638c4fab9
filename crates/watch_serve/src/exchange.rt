use crate::wire::{Came, Wire};
use etcd_words::{Answer, answer_of};
use std::alloc::{AllocError, Global};

/// What etcd was asked last, of which the answer isn't there yet.
#[derive(Clone, Copy, Debug, PartialEq, Eq)]
pub(crate) enum Asked {
    Nothing,
    Grant,
    Register,
    Renew,
    Look,
    Condemn,
    Revoke,
}

/// What became of a question.
#[derive(Drop)]
pub(crate) enum Outcome {
    /// There is no answer yet.
    Waits,
    /// This is what etcd answered.
    Answer(Vec<u8>),
    /// It refused.
    Refused,
    /// There is none.
    None,
}

/// A question to etcd, on a connection of its own.
#[derive(Drop)]
pub(crate) struct Exchange {
    alloc: Global,
    wire: Option<Wire>,
    /// What was asked.
    pub(crate) asked: Asked,
    /// When it was asked.
    pub(crate) asked_at: u64,
}

impl Exchange {
    /// Nothing is asked.
    pub(crate) fn new(alloc: Global) -> Exchange {
        Exchange {
            alloc,
            wire: None,
            asked: Asked::Nothing,
            asked_at: 0,
        }
    }

    /// Asks.
    pub(crate) fn begin(&mut self, wire: Wire, asked: Asked, now: u64) {
        self.wire = Some(wire);
        self.asked = asked;
        self.asked_at = now;
    }

    /// Forgets what was asked.
    pub(crate) fn give_up(&mut self) {
        self.wire = None;
        self.asked = Asked::Nothing;
    }

    /// Goes on, for so many milliseconds at most.
    pub(crate) fn go_on(&mut self, now: u64, most: u64) -> Outcome {
        let Some(wire) = &mut self.wire else {
            return Outcome::None;
        };
        match wire.go_on() {
            Came::Open if now.saturating_sub(self.asked_at) < most => Outcome::Waits,
            Came::Ended => answer_in(self.alloc, wire.text()).unwrap_or(Outcome::None),
            _ => Outcome::None,
        }
    }
}

/// The answer that a text is.
fn answer_in(alloc: Global, text: &[u8]) -> Result<Outcome, AllocError> {
    match answer_of(text) {
        Answer::Done(body) => Ok(Outcome::Answer(Vec::from_slice(alloc, body)?)),
        Answer::Refused => Ok(Outcome::Refused),
        Answer::None => Ok(Outcome::None),
    }
}
