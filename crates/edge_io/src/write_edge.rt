ghost use Rattle.std.specs.Prelude.{◌≡◌, []};

use crate::fault::SinkFault;
use crate::past::Past;
use crate::sink::Sink;
use std::io::{ErrorKind, Write};

/// How many times in a row an interrupted write is tried again.
const RETRIES: u32 = 1_000_000;

/// A writer of std as a sink: each error counts as a fault, and so does an interruption of the
/// last try and a write that takes nothing of a piece. It keeps the bytes taken, and the clause `inner`
/// ties them to what the writer tells, which of standard output is nothing.
#[derive(Drop)]
pub struct WriteEdge<W> {
    inner: W,
    faults: u64,
    past: Past,
}

impl<W: Write> WriteEdge<W> {
    /// The writer `inner`, to which nothing was written and no fault counted.
    pub fn new(inner: W) -> WriteEdge<W>
        ensures { result ≡ record { inner = inner; faults = 0; past = record { bytes = [] } } }
    {
        WriteEdge {
            inner,
            faults: 0,
            past: Past::new(),
        }
    }
}

impl<W: Write> Sink for WriteEdge<W> {
    ghost use Rattle.std.specs.Prelude.{◌≡◌, ◌<◌, length, IfOk, IfErr, is_err, if◌then◌else◌};
    ghost use Rattle.std.specs.Io.{WritesAtMost};
    ghost use Rattle.std.specs.Io.KnownBytes.{WriteAppends};
    ghost use Rattle.edge_io.specs.Faults.{HasCauseOf, saturating_next};
    ghost use Rattle.edge_io.specs.Moving.{WriteMoves};

    ghost held = { λ s. s.past.bytes };

    ghost faults = { λ s. s.faults };

    fn write(&mut self, piece: &[u8]) -> Result<usize, SinkFault>
        ensures bound { WritesAtMost result piece.now }
        ensures moves { IfOk result (λ n. 0 < length piece.now → 0 < n) }
        ensures bytes { WriteMoves self.old.past.bytes self.new.past.bytes result piece.now }
        ensures inner { WriteAppends (W.contents self.old.inner) (W.contents self.new.inner) result piece.now }
        ensures cause { HasCauseOf self.old.faults self.new.faults result SinkFault.Failed }
        ensures no_want { IfErr result (λ fault. fault ≡ SinkFault.Failed) }
        ensures count { self.new.faults ≡ (if is_err result then saturating_next self.old.faults else self.old.faults) }
    {
        'tries: for _ in 0..=RETRIES {
            match self.inner.write(piece) {
                Ok(n) => {
                    if n == 0 && !piece.is_empty() {
                        break 'tries;
                    }
                    self.past.add(&piece[..n]);
                    return Ok(n);
                }
                Err(error) => {
                    if error.kind() != ErrorKind::Interrupted {
                        break 'tries;
                    }
                }
            }
        }
        self.faults = self.faults.saturating_add(1);
        Err(SinkFault::Failed)
    }
}
