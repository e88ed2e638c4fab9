use crate::calls::Calls;
use crate::fault::{Failed, SinkFault};
use crate::sink::Sink;
use std::alloc::{AllocError, Global};
use std::marker::Model;

/// A sink in memory, with writes that fail by their number.
#[derive(Drop)]
pub struct MemorySink {
    bytes: Vec<u8>,
    calls: Calls,
}

impl Model for MemorySink {
    ghost use Rattle.edge_io.specs.Memory.{SinkContents};

    ghost Value = { SinkContents };

    ghost view = { λ s. record { held = s.bytes.items; calls = s.calls } };
}

impl MemorySink {
    ghost use Rattle.std.specs.Prelude.{◌≡◌, [], IfOk};

    /// A sink that holds nothing, whose writes with a number in `failing`, counted from 1, fail.
    pub fn new(alloc: Global, failing: &[u64]) -> Result<MemorySink, AllocError>
        ensures held { IfOk result (λ s. s.held ≡ []) }
        ensures calls { IfOk result (λ s. s.calls ≡ record { failing = failing.now; made = 0; faults = 0 }) }
    {
        Ok(MemorySink {
            bytes: Vec::new(alloc),
            calls: Calls::new(alloc, failing)?,
        })
    }

    /// The bytes taken so far.
    pub fn bytes(&self) -> &[u8]
        ensures { result.now ≡ self.now.held }
    {
        &self.bytes
    }
}

impl Sink for MemorySink {
    ghost use Rattle.std.specs.Prelude.{◌≡◌, ◌<◌, ◌↔◌, length, IfOk, IsTrue};
    ghost use Rattle.std.specs.Io.{WritesAtMost};
    ghost use Rattle.edge_io.specs.Calls.{after_call, fails_next};
    ghost use Rattle.edge_io.specs.Faults.{HasCauseOf};
    ghost use Rattle.edge_io.specs.Moving.{WriteMoves};

    ghost held = { λ s. s.held };

    ghost faults = { λ s. s.calls.faults };

    fn write(&mut self, piece: &[u8]) -> Result<usize, SinkFault>
        ensures bound { WritesAtMost result piece.now }
        ensures moves { IfOk result (λ n. 0 < length piece.now → 0 < n) }
        ensures bytes { WriteMoves self.old.held self.new.held result piece.now }
        ensures cause { HasCauseOf self.old.calls.faults self.new.calls.faults result SinkFault.Failed }
        ensures want { result ≡ Err SinkFault.Want → self.new.calls.faults ≡ self.old.calls.faults }
        ensures whole { IfOk result (λ n. n ≡ length piece.now) }
        ensures fails { (result ≡ Err SinkFault.Failed) ↔ IsTrue (fails_next self.old.calls) }
        ensures calls { self.new.calls ≡ after_call self.old.calls }
    {
        match self.calls.count_next() {
            Ok(()) => {}
            Err(Failed) => return Err(SinkFault::Failed),
        }
        match self.bytes.extend_from_slice(piece) {
            Ok(()) => Ok(piece.len()),
            Err(AllocError) => Err(SinkFault::Want),
        }
    }
}
