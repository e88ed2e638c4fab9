use crate::memory_source::MemorySource;
use crate::shared_sink::SharedSink;
use std::alloc::{AllocError, Global};
use std::marker::Model;

/// A connection in memory to come, of which contracts see the bytes that its source will give.
#[derive(Drop)]
pub(crate) struct Arrival {
    source: MemorySource,
    sink: SharedSink,
}

impl Model for Arrival {
    ghost use Rattle.std.specs.Prelude.{◌≡◌, ℕ, List, [], false};

    ghost Value = { List ℕ };

    ghost view = { λ a. a.source.left };

    ghost invariant = { λ a. (a.source.taken ≡ []) × (a.source.ended ≡ false) × (a.sink.past.bytes ≡ []) };
}

impl Arrival {
    ghost use Rattle.std.specs.Prelude.{◌≡◌, [], false, IfOk};

    /// A connection whose source gives these bytes and whose sink holds nothing.
    pub(crate) fn new(alloc: Global, bytes: &[u8], sink: SharedSink) -> Result<Arrival, AllocError>
        requires { sink.past.bytes ≡ [] }
        ensures { IfOk result (λ a. a ≡ bytes.now) }
    {
        Ok(Arrival {
            source: MemorySource::new(alloc, bytes, &[])?,
            sink,
        })
    }

    /// Its ends, of which nothing was read and nothing written.
    pub(crate) fn open(self) -> (MemorySource, SharedSink)
        ensures left { result.0.left ≡ self }
        ensures unread { (result.0.taken ≡ []) × (result.0.ended ≡ false) }
        ensures fresh { result.1.past.bytes ≡ [] }
    {
        (self.source, self.sink)
    }
}
