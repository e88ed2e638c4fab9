ghost use Rattle.std.specs.Prelude.{◌≡◌, ℕ, ◌<◌, List, length};
ghost use Rattle.std.specs.Io.{WritesAtMost};
ghost use Rattle.edge_io.specs.Faults.{HasCause};
ghost use Rattle.edge_io.specs.Moving.{Input, WriteMoves};
ghost use Rattle.outbox.specs.Trying.{IsReadWithin, TryTakes};

use crate::reading::Reading;
use edge_io::Failed;

/// A connection whose bytes come and go in pieces of any size, and are moved without waiting.
pub trait TryStream {
    // What was handed out so far, whether the end was met, and what is still to come, where that is known.
    ghost input: { Self → Input };

    // The bytes taken so far.
    ghost held: { Self → List ℕ };

    // The faults counted so far, a `u64`.
    ghost faults: { Self → ℕ };

    /// Moves the next bytes into the front of `into`, as far as they are there. `Failed` leaves the bytes still to come.
    fn try_read(&mut self, into: &mut [u8]) -> Result<Reading, Failed>
        requires room { 0 < length into.old }
        ensures bound { IsReadWithin result into.old into.new }
        ensures bytes { TryTakes (input self.old) (input self.new) result into.new }
        ensures held { held self.new ≡ held self.old }
        ensures cause { HasCause (faults self.old) (faults self.new) result };

    /// Takes bytes from the front of `piece` and returns how many: 0 where it would have to wait. After `Failed` the
    /// bytes taken are those taken before.
    fn try_write(&mut self, piece: &[u8]) -> Result<usize, Failed>
        ensures bound { WritesAtMost result piece.now }
        ensures bytes { WriteMoves (held self.old) (held self.new) result piece.now }
        ensures input { input self.new ≡ input self.old }
        ensures cause { HasCause (faults self.old) (faults self.new) result };

    /// It became ready, and its peer may have closed it: the next read is tried. Nothing that was moved or counted changes.
    fn woken(&self, ends: bool);
}
