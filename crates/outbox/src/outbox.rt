ghost use Rattle.std.specs.Prelude.{◌≡◌, []};

use crate::front::{cut_front, send};
use crate::sending::Sending;
use crate::try_stream::TryStream;
use edge_io::{Failed, Sink, SinkFault};
use std::alloc::{AllocError, Global};
use std::marker::Model;

/// The most memory that an outbox keeps while nothing waits in it, in bytes.
const KEPT: usize = 2_048;

/// What was written and is not sent yet: a sink with no fault but want of memory.
#[derive(Drop)]
pub struct Outbox {
    alloc: Global,
    bytes: Vec<u8>,
    sent: usize,
}

impl Model for Outbox {
    ghost use Rattle.std.specs.Prelude.{ℕ, ◌≤◌, List, drop, vec_len};

    ghost Value = { List ℕ };

    ghost view = { λ o. drop o.sent o.bytes.items };

    ghost invariant = { λ o. o.sent ≤ vec_len o.bytes };
}

impl Outbox {
    ghost use Rattle.std.specs.Prelude.{◌≡◌, ◌+◌, ◌≤◌, ◌↔◌, [], length, drop, IsTrue};
    ghost use Rattle.edge_io.specs.Faults.{HasCause};
    ghost use Rattle.outbox.specs.Trying.{IsSent, Sends};

    /// Nothing waits.
    pub fn new(alloc: Global) -> Outbox
        ensures { result ≡ [] }
    {
        Outbox {
            alloc,
            bytes: Vec::new(alloc),
            sent: 0,
        }
    }

    /// How many bytes wait.
    pub fn len(&self) -> usize
        ensures { result ≡ length self.now }
    {
        self.bytes.len() - self.sent
    }

    /// Whether nothing waits.
    pub fn is_empty(&self) -> bool
        ensures { IsTrue result ↔ (self.now ≡ []) }
    {
        self.len() == 0
    }

    /// Sends what waits, at most so many bytes and as far as the stream takes them without waiting. At a fault what was not
    /// sent still waits.
    pub fn write_out<S: TryStream>(
        &mut self,
        stream: &mut S,
        most: usize,
    ) -> Result<Sending, Failed>
        ensures sends { Sends (S.held stream.old) (S.held stream.new) self.old self.new }
        ensures few { length (S.held stream.new) ≤ length (S.held stream.old) + most }
        ensures sent { IsSent most (S.held stream.old) (S.held stream.new) self.new result }
        ensures input { S.input stream.new ≡ S.input stream.old }
        ensures cause { HasCause (S.faults stream.old) (S.faults stream.new) result }
    {
        let most = self.len().min(most);
        let mut count = 0;
        let end = send(stream, &self.bytes[self.sent..self.sent + most], &mut count);
        self.skip(count);
        match end {
            Ok(()) if self.is_empty() => Ok(Sending::All),
            Ok(()) if count == most => Ok(Sending::Part),
            Ok(()) => Ok(Sending::Waits),
            Err(Failed) => Err(Failed),
        }
    }

    // The first so many bytes that wait were sent.
    fn skip(&mut self, count: usize)
        requires within { count ≤ length self.old }
        ensures { self.new ≡ drop count self.old }
    {
        self.sent += count;
        if self.sent == self.bytes.len() {
            self.clear();
        }
    }

    // Nothing waits any more: the memory of much is given back.
    fn clear(&mut self)
        ensures { self.new ≡ [] }
    {
        if self.bytes.capacity() > KEPT {
            self.bytes = Vec::new(self.alloc);
        } else {
            self.bytes.truncate(0);
        }
        self.sent = 0;
    }

    // The memory of what was sent is used again once it is as much as waits.
    fn compact(&mut self)
        ensures { self.new ≡ self.old }
    {
        if self.sent >= self.bytes.len() - self.sent {
            cut_front(&mut self.bytes, self.sent);
            self.sent = 0;
        }
    }
}

impl Sink for Outbox {
    ghost use Rattle.std.specs.Prelude.{◌≡◌, ◌<◌, length, IfOk, IfErr};
    ghost use Rattle.std.specs.Io.{WritesAtMost};
    ghost use Rattle.edge_io.specs.Moving.{WriteMoves};

    ghost held = { λ o. o };

    ghost faults = { λ _. 0 };

    fn write(&mut self, piece: &[u8]) -> Result<usize, SinkFault>
        ensures bound { WritesAtMost result piece.now }
        ensures bytes { WriteMoves self.old self.new result piece.now }
        ensures whole { IfOk result (λ n. n ≡ length piece.now) }
        ensures want_alone { IfErr result (λ fault. fault ≡ SinkFault.Want) }
    {
        self.compact();
        match self.bytes.extend_from_slice(piece) {
            Ok(()) => Ok(piece.len()),
            Err(AllocError) => Err(SinkFault::Want),
        }
    }
}
