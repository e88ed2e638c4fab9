ghost use Rattle.std.specs.Prelude.{◌≡◌, [], IfOk};

use crate::fault::SinkFault;
use crate::past::Past;
use crate::sink::Sink;
use std::alloc::{AllocError, Global};
use std::sync::{Arc, Mutex};

/// A sink whose bytes stand in a buffer that another holds too, behind a lock that each write tries once: a
/// write that meets it held fails. That the buffer has the bytes which the sink took is shown by tests alone.
#[derive(Drop)]
pub struct SharedSink {
    buffer: Arc<Mutex<Vec<u8>>>,
    faults: u64,
    past: Past,
}

impl SharedSink {
    /// A sink that holds nothing, with an empty buffer.
    pub(crate) fn new(alloc: Global) -> Result<SharedSink, AllocError>
        ensures held { IfOk result (λ s. s.past.bytes ≡ []) }
    {
        Ok(SharedSink {
            buffer: Arc::new(alloc, Mutex::new(Vec::new(alloc)))?,
            faults: 0,
            past: Past::new(),
        })
    }

    /// The buffer of this sink, as the other holder has it.
    pub(crate) fn buffer(&self) -> Result<Arc<Mutex<Vec<u8>>>, AllocError> {
        self.buffer.clone()
    }
}

impl Sink for SharedSink {
    ghost use Rattle.std.specs.Prelude.{◌≡◌, ◌<◌, length, Err, IfOk, if◌then◌else◌};
    ghost use Rattle.std.specs.Io.{WritesAtMost};
    ghost use Rattle.edge_io.specs.Faults.{HasCauseOf};
    ghost use Rattle.edge_io.specs.Moving.{WriteMoves};

    ghost held = { λ s. s.past.bytes };

    ghost faults = { λ s. s.faults };

    fn write(&mut self, piece: &[u8]) -> Result<usize, SinkFault>
        ensures bound { WritesAtMost result piece.now }
        ensures moves { IfOk result (λ n. 0 < length piece.now → 0 < n) }
        ensures bytes { WriteMoves self.old.past.bytes self.new.past.bytes result piece.now }
        ensures cause { HasCauseOf self.old.faults self.new.faults result SinkFault.Failed }
        ensures want { result ≡ Err SinkFault.Want → self.new.faults ≡ self.old.faults }
        ensures whole { IfOk result (λ n. n ≡ length piece.now) }
    {
        let Some(mut buffer) = self.buffer.try_lock() else {
            self.faults = self.faults.saturating_add(1);
            return Err(SinkFault::Failed);
        };
        let bytes = &mut *buffer;
        match bytes.extend_from_slice(piece) {
            Ok(()) => {}
            Err(AllocError) => return Err(SinkFault::Want),
        }
        self.past.add(piece);
        Ok(piece.len())
    }
}
