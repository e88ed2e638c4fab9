ghost use Rattle.std.specs.Prelude.{◌≡◌, ℕ, ◌<◌, List, length, IfOk};
ghost use Rattle.std.specs.Io.{WritesAtMost};
ghost use Rattle.edge_io.specs.Faults.{HasCauseOf};
ghost use Rattle.edge_io.specs.Moving.{WriteMoves};

use crate::fault::SinkFault;

/// Where bytes go, in pieces of any size.
pub trait Sink {
    // The bytes taken so far.
    ghost held: { Self → List ℕ };

    // The faults counted so far, a `u64`.
    ghost faults: { Self → ℕ };

    /// Takes bytes from the front of `piece` and returns how many: at least one where `piece`
    /// is not empty. After `Failed` and after `Want` the bytes taken are those taken before.
    fn write(&mut self, piece: &[u8]) -> Result<usize, SinkFault>
        ensures bound { WritesAtMost result piece.now }
        ensures moves { IfOk result (λ n. 0 < length piece.now → 0 < n) }
        ensures bytes { WriteMoves (held self.old) (held self.new) result piece.now }
        ensures cause { HasCauseOf (faults self.old) (faults self.new) result SinkFault.Failed }
        ensures want { result ≡ Err SinkFault.Want → faults self.new ≡ faults self.old };
}
