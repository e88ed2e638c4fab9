ghost use Rattle.std.specs.Prelude.{◌≡◌, ◌==◌, ◌↔◌, Contains, IsTrue};
ghost use Rattle.std.specs.List.{list_any};

use super::Arrivals;
use group_types::Piece;

impl Arrivals {
    /// Whether the piece of a number is among those that are awaited, or came.
    pub(crate) fn is_for(&self, number: u32) -> bool
        ensures { IsTrue result ↔ Contains self.now.numbers number }
    {
        has_number(self.pieces.pieces(), number)
    }
}

// Whether one of the pieces has this number.
fn has_number(pieces: &[Piece], number: u32) -> bool
    ensures { result ≡ list_any (λ p. p.number == number) pieces.now }
{
    pieces.iter().any(|piece| piece.number == number)
}
