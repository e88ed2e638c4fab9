ghost use Rattle.std.specs.Prelude.{◌≡◌, ◌<◌, ◌↔◌, ℕ, length, IsTrue};
ghost use Rattle.std.specs.Io.{ReadsAtMost};
ghost use Rattle.edge_io.specs.Faults.{HasCause};
ghost use Rattle.edge_io.specs.Moving.{Input, ReadTakes};

use crate::fault::Failed;

/// Bytes that come in pieces of any size, up to their end.
pub trait Source {
    // What was handed out so far, whether the end was met, and what is still to come, where that is known.
    ghost input: { Self → Input };

    // The faults counted so far, a `u64`.
    ghost faults: { Self → ℕ };

    /// Moves the next bytes into the front of `into` and returns how many. `Ok(0)` for a piece
    /// that is not empty is the end of input, and `Failed` leaves the bytes still to come.
    fn read(&mut self, into: &mut [u8]) -> Result<usize, Failed>
        ensures bound { ReadsAtMost result into.new }
        ensures bytes { ReadTakes (input self.old) (input self.new) result into.new }
        ensures cause { HasCause (faults self.old) (faults self.new) result };
}

/// Whether a read that gave `n` bytes of this room met the end of input.
pub(crate) fn meets_end(n: usize, room: &[u8]) -> bool
    ensures { IsTrue result ↔ ((n ≡ 0) × (0 < length room.now)) }
{
    n == 0 && !room.is_empty()
}
