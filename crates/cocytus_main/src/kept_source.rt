use edge_io::{Failed, Source};
use std::alloc::Global;

/// The most bytes that are kept: a script has no more.
const MOST: usize = 16_777_216;

/// A source that keeps what is read of it, so that a person can be told which line of a script is refused.
#[derive(Drop)]
pub(crate) struct KeptSource<S> {
    source: S,
    kept: Vec<u8>,
    keeps: bool,
}

impl<S> KeptSource<S> {
    ghost use Rattle.std.specs.Prelude.{◌≡◌};

    /// A source of which nothing was read, and that keeps what is.
    pub(crate) fn new(alloc: Global, source: S) -> KeptSource<S> {
        KeptSource {
            source,
            kept: Vec::new(alloc),
            keeps: true,
        }
    }

    /// The front of what was read.
    pub(crate) fn kept(&self) -> &[u8] {
        &self.kept
    }

    // Without room or memory no more is kept.
    fn keep(&mut self, piece: &[u8])
        ensures { self.new.source ≡ self.old.source }
    {
        let room = MOST.saturating_sub(self.kept.len());
        self.keeps = self.keeps && piece.len() <= room;
        if self.keeps {
            self.keeps = self.kept.extend_from_slice(piece).is_ok();
        }
    }
}

impl<S: Source> Source for KeptSource<S> {
    ghost input = { λ kept. S.input kept.source };

    ghost faults = { λ kept. S.faults kept.source };

    fn read(&mut self, into: &mut [u8]) -> Result<usize, Failed> {
        let count = self.source.read(into)?;
        self.keep(&into[..count]);
        Ok(count)
    }
}
