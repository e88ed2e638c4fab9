ghost use Rattle.std.specs.Prelude.{◌≡◌, ◌<◌, [], false};

use crate::reading::Reading;
use crate::supply::Supply;
use crate::try_stream::TryStream;
use edge_io::{Failed, Past};
use std::cell::Cell;
use std::io::{ErrorKind, Read, Write};

/// How many times in a row an interrupted call is tried again.
const RETRIES: u32 = 1_000_000;

/// A stream of std that does not wait, as a source and a sink: `WouldBlock` says that it would have to, each other error
/// counts as a fault, and so does an interruption of the last try. It keeps the bytes that it moved. One whose owner tells
/// when it is ready is not read again behind a read that came short, until it is told.
#[derive(Drop)]
pub struct TryEdge<X> {
    inner: X,
    // (a cell: to be told changes nothing that a contract sees)
    supply: Cell<Supply>,
    faults: u64,
    ended: bool,
    incoming: Past,
    outgoing: Past,
}

impl<X: Read + Write> TryEdge<X> {
    /// The stream `inner`, of which nothing was read, to which nothing was written, and no fault counted.
    pub fn new(inner: X) -> TryEdge<X>
        ensures inner { result.inner ≡ inner }
        ensures unread { (result.incoming.bytes ≡ []) × (result.ended ≡ false) }
        ensures fresh { result.outgoing.bytes ≡ [] }
        ensures faults { result.faults ≡ 0 }
    {
        TryEdge::supplied(inner, Supply::Unknown)
    }

    /// The same, whose owner tells each time that it is ready: when bytes come behind those that were there, and when its
    /// peer closes it.
    pub fn told(inner: X) -> TryEdge<X>
        ensures inner { result.inner ≡ inner }
        ensures unread { (result.incoming.bytes ≡ []) × (result.ended ≡ false) }
        ensures fresh { result.outgoing.bytes ≡ [] }
        ensures faults { result.faults ≡ 0 }
    {
        TryEdge::supplied(inner, Supply::Open)
    }

    fn supplied(inner: X, supply: Supply) -> TryEdge<X>
        ensures inner { result.inner ≡ inner }
        ensures unread { (result.incoming.bytes ≡ []) × (result.ended ≡ false) }
        ensures fresh { result.outgoing.bytes ≡ [] }
        ensures faults { result.faults ≡ 0 }
    {
        TryEdge {
            inner,
            supply: Cell::new(supply),
            faults: 0,
            ended: false,
            incoming: Past::new(),
            outgoing: Past::new(),
        }
    }
}

impl<X: Read + Write> TryStream for TryEdge<X> {
    ghost use Rattle.std.specs.Prelude.{◌≡◌, None};
    ghost use Rattle.std.specs.Io.{WritesAtMost};
    ghost use Rattle.std.specs.Io.KnownBytes.{WriteAppends};
    ghost use Rattle.edge_io.specs.Faults.{HasCause};
    ghost use Rattle.edge_io.specs.Moving.{Input, WriteMoves};
    ghost use Rattle.outbox.specs.Trying.{IsReadWithin, TryConsumes, TryTakes};

    ghost input = { λ s. record { taken = s.incoming.bytes; ended = s.ended; left = None } };

    ghost held = { λ s. s.outgoing.bytes };

    ghost faults = { λ s. s.faults };

    fn try_read(&mut self, into: &mut [u8]) -> Result<Reading, Failed>
        ensures bound { IsReadWithin result into.old into.new }
        ensures bytes { TryTakes (record { taken = self.old.incoming.bytes; ended = self.old.ended; left = None })
            (record { taken = self.new.incoming.bytes; ended = self.new.ended; left = None }) result into.new }
        ensures inner { TryConsumes (X.remaining self.old.inner) (X.remaining self.new.inner) result into.new }
        ensures held { self.new.outgoing.bytes ≡ self.old.outgoing.bytes }
        ensures cause { HasCause self.old.faults self.new.faults result }
    {
        if self.supply.get() == Supply::Drained {
            return Ok(Reading::Waits);
        }
        'tries: for _ in 0..=RETRIES {
            match self.inner.read(into) {
                Ok(n) => {
                    self.incoming.add(&into[..n]);
                    self.ended = n == 0;
                    self.supply.set(self.supply.get().behind(n, into.len()));
                    return Ok(reading_of(n));
                }
                Err(error) => match error.kind() {
                    ErrorKind::WouldBlock => return Ok(Reading::Waits),
                    ErrorKind::Interrupted => {}
                    _ => break 'tries,
                },
            }
        }
        self.faults = self.faults.saturating_add(1);
        Err(Failed)
    }

    fn try_write(&mut self, piece: &[u8]) -> Result<usize, Failed>
        ensures bound { WritesAtMost result piece.now }
        ensures bytes { WriteMoves self.old.outgoing.bytes self.new.outgoing.bytes result piece.now }
        ensures inner { WriteAppends (X.contents self.old.inner) (X.contents self.new.inner) result piece.now }
        ensures unread { (self.new.incoming.bytes ≡ self.old.incoming.bytes) × (self.new.ended ≡ self.old.ended) }
        ensures cause { HasCause self.old.faults self.new.faults result }
    {
        'tries: for _ in 0..=RETRIES {
            match self.inner.write(piece) {
                Ok(n) => {
                    self.outgoing.add(&piece[..n]);
                    return Ok(n);
                }
                Err(error) => match error.kind() {
                    ErrorKind::WouldBlock => return Ok(0),
                    ErrorKind::Interrupted => {}
                    _ => break 'tries,
                },
            }
        }
        self.faults = self.faults.saturating_add(1);
        Err(Failed)
    }

    fn woken(&self, ends: bool) {
        self.supply.set(self.supply.get().woken(ends));
    }
}

/// What a read came to that moved so many bytes.
fn reading_of(n: usize) -> Reading
    ensures ended { n ≡ 0 → result ≡ Reading.Ended }
    ensures came { 0 < n → result ≡ Reading.Came n }
{
    if n == 0 {
        Reading::Ended
    } else {
        Reading::Came(n)
    }
}
