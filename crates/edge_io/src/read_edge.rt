ghost use Rattle.std.specs.Prelude.{◌≡◌, [], false};

use crate::fault::Failed;
use crate::past::Past;
use crate::source::{Source, meets_end};
use std::io::{ErrorKind, Read};

/// How many times in a row an interrupted read is tried again.
const RETRIES: u32 = 1_000_000;

/// A reader of std as a source: each error counts as a fault, and so does an interruption of the
/// last try. It tells the bytes to come where the reader does, which standard input does not, and keeps
/// what it handed out.
#[derive(Drop)]
pub struct ReadEdge<R> {
    inner: R,
    faults: u64,
    ended: bool,
    past: Past,
}

impl<R: Read> ReadEdge<R> {
    /// The reader `inner`, of which nothing was read and no fault counted.
    pub fn new(inner: R) -> ReadEdge<R>
        ensures { result ≡ record { inner = inner; faults = 0; ended = false; past = record { bytes = [] } } }
    {
        ReadEdge {
            inner,
            faults: 0,
            ended: false,
            past: Past::new(),
        }
    }
}

impl<R: Read> Source for ReadEdge<R> {
    ghost use Rattle.std.specs.Prelude.{◌≡◌, is_err, if◌then◌else◌};
    ghost use Rattle.std.specs.Io.{ReadsAtMost};
    ghost use Rattle.edge_io.specs.Faults.{HasCause, saturating_next};
    ghost use Rattle.edge_io.specs.Moving.{Input, ReadTakes};

    ghost input = { λ s. record { taken = s.past.bytes; ended = s.ended; left = R.remaining s.inner } };

    ghost faults = { λ s. s.faults };

    fn read(&mut self, into: &mut [u8]) -> Result<usize, Failed>
        ensures bound { ReadsAtMost result into.new }
        ensures bytes { ReadTakes (record { taken = self.old.past.bytes; ended = self.old.ended; left = R.remaining self.old.inner })
            (record { taken = self.new.past.bytes; ended = self.new.ended; left = R.remaining self.new.inner }) result into.new }
        ensures cause { HasCause self.old.faults self.new.faults result }
        ensures count { self.new.faults ≡ (if is_err result then saturating_next self.old.faults else self.old.faults) }
    {
        'tries: for _ in 0..=RETRIES {
            match self.inner.read(into) {
                Ok(n) => {
                    self.past.add(&into[..n]);
                    self.ended = meets_end(n, into);
                    return Ok(n);
                }
                Err(error) => {
                    if error.kind() != ErrorKind::Interrupted {
                        break 'tries;
                    }
                }
            }
        }
        self.faults = self.faults.saturating_add(1);
        Err(Failed)
    }
}
