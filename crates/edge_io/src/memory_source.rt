ghost use Rattle.std.specs.Prelude.{◌≡◌, ◌++◌, min, length, take, drop};

use crate::calls::Calls;
use crate::fault::Failed;
use crate::source::{Source, meets_end};
use std::alloc::{AllocError, Global};
use std::marker::Model;

/// Bytes in memory as a source, with reads that fail by their number and pieces of a given size.
#[derive(Drop)]
pub struct MemorySource {
    bytes: Vec<u8>,
    at: usize,
    piece: usize,
    ended: bool,
    calls: Calls,
}

impl Model for MemorySource {
    ghost use Rattle.std.specs.Prelude.{◌<◌, ◌≤◌, take, drop, vec_len};
    ghost use Rattle.edge_io.specs.Memory.{Supply};

    ghost Value = { Supply };

    ghost view = { λ s. record { taken = take s.at s.bytes.items; left = drop s.at s.bytes.items; ended = s.ended; piece = s.piece; calls = s.calls } };

    ghost invariant = { λ s. (s.at ≤ vec_len s.bytes) × (0 < s.piece) };
}

impl MemorySource {
    ghost use Rattle.std.specs.Prelude.{◌≡◌, ◌≤◌, [], false, IfOk};

    /// A source of `bytes` whose reads with a number in `failing`, counted from 1, fail.
    pub fn new(alloc: Global, bytes: &[u8], failing: &[u64]) -> Result<MemorySource, AllocError>
        ensures left { IfOk result (λ s. s.left ≡ bytes.now) }
        ensures taken { IfOk result (λ s. s.taken ≡ []) }
        ensures ended { IfOk result (λ s. s.ended ≡ false) }
        ensures piece { IfOk result (λ s. s.piece ≡ usize.MAX) }
        ensures calls { IfOk result (λ s. s.calls ≡ record { failing = failing.now; made = 0; faults = 0 }) }
    {
        Ok(MemorySource {
            bytes: Vec::from_slice(alloc, bytes)?,
            at: 0,
            piece: usize::MAX,
            ended: false,
            calls: Calls::new(alloc, failing)?,
        })
    }

    /// The same source, whose reads hand out at most `n` bytes each.
    pub fn with_piece(mut self, n: usize) -> MemorySource
        requires { 1 ≤ n }
        ensures { result ≡ record { taken = self.taken; left = self.left; ended = self.ended; piece = n; calls = self.calls } }
    {
        self.piece = n;
        self
    }
}

impl Source for MemorySource {
    ghost use Rattle.std.specs.Prelude.{◌≡◌, min, length, IfOk, is_err};
    ghost use Rattle.std.specs.Io.{ReadsAtMost};
    ghost use Rattle.edge_io.specs.Calls.{after_call, fails_next};
    ghost use Rattle.edge_io.specs.Faults.{HasCause};
    ghost use Rattle.edge_io.specs.Memory.{input_of};
    ghost use Rattle.edge_io.specs.Moving.{ReadTakes};

    ghost input = { λ s. input_of s };

    ghost faults = { λ s. s.calls.faults };

    fn read(&mut self, into: &mut [u8]) -> Result<usize, Failed>
        ensures bound { ReadsAtMost result into.new }
        ensures bytes { ReadTakes (input_of self.old) (input_of self.new) result into.new }
        ensures cause { HasCause self.old.calls.faults self.new.calls.faults result }
        ensures count { IfOk result (λ n. n ≡ min (min (length into.new) (length self.old.left)) self.old.piece) }
        ensures fails { is_err result ≡ fails_next self.old.calls }
        ensures calls { self.new.calls ≡ after_call self.old.calls }
        ensures piece { self.new.piece ≡ self.old.piece }
    {
        self.calls.count_next()?;
        let n = copy_front(&self.bytes[self.at..], into, self.piece);
        self.at += n;
        self.ended = meets_end(n, into);
        Ok(n)
    }
}

// Copies the front of `from` to that of `into`: what both have room for, and at most `most` bytes.
fn copy_front(from: &[u8], into: &mut [u8], most: usize) -> usize
    ensures count { result ≡ min (min (length into.new) (length from.now)) most }
    ensures front { from.now ≡ take result into.new ++ drop result from.now }
{
    let n = into.len().min(from.len()).min(most);
    into[..n].copy_from_slice(&from[..n]);
    n
}
