use edge_io::{Sink, SinkFault};
use std::alloc::Global;

/// A sink in memory that never fails.
#[derive(Drop)]
pub(crate) struct Page {
    text: Vec<u8>,
}

impl Page {
    ghost use Rattle.std.specs.Prelude.{◌≡◌, [], length};

    pub(crate) fn new(alloc: Global) -> Page
        ensures { result.text.items ≡ [] }
    {
        Page {
            text: Vec::new(alloc),
        }
    }

    /// How many bytes it holds.
    pub(crate) fn len(&self) -> usize
        ensures { result ≡ length self.now.text.items }
    {
        self.text.len()
    }
}

impl Sink for Page {
    ghost held = { λ page. page.text.items };

    ghost faults = { λ _. 0 };

    fn write(&mut self, piece: &[u8]) -> Result<usize, SinkFault> {
        match self.text.extend_from_slice(piece) {
            Ok(()) => Ok(piece.len()),
            Err(_) => Err(SinkFault::Want),
        }
    }
}
