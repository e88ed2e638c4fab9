// Pieces that are added to two sums at a time.
ghost use Rattle.std.specs.Prelude.{◌≡◌, ℕ, ◌+◌, ◌<◌, ◌≤◌, All, length, slice_index};
ghost use Rattle.cauchy_code.specs.Solving.{IsAdded};

use field_byte::Split;
use group_types::Piece;
use lane_kernel::{mul_add_four_into, mul_add_into, mul_add_two_into};

/// Adds to two sums, which have the pieces before `from`, the bytes of the others from `at` on, each
/// piece times its coefficient in the one and in the other sum. Four pieces go in one pass.
pub(crate) fn add_pieces(
    in_first: &[u8],
    in_second: &[u8],
    pieces: &[Piece],
    from: usize,
    at: usize,
    first: &mut [u8],
    second: &mut [u8],
)
    requires in_first { length pieces.now ≤ length in_first.now }
    requires in_second { length pieces.now ≤ length in_second.now }
    requires from { from ≤ length pieces.now }
    requires long { All (λ p. at + length first.old ≤ length p.bytes) pieces.now }
    requires same { length second.old ≡ length first.old }
    ensures first { IsAdded (slice_index in_first.now) pieces.now from at first.old first.new }
    ensures second { IsAdded (slice_index in_second.now) pieces.now from at second.old second.new }
{
    let len = first.len();
    let mut j = from;
    'fours: while j + 4 <= pieces.len() {
        let (a, b) = (part(&pieces[j], at, len), part(&pieces[j + 1], at, len));
        let (c, d) = (part(&pieces[j + 2], at, len), part(&pieces[j + 3], at, len));
        let by_first = four_of(in_first, j);
        let by_second = four_of(in_second, j);
        mul_add_four_into(&by_first, &by_second, a, b, c, d, first, second);
        j += 4;
    }
    add_pairs(in_first, in_second, pieces, j, at, first, second);
}

// Four coefficients, prepared.
fn four_of(coefs: &[u8], j: usize) -> [Split; 4]
    requires { j + 4 ≤ length coefs.now }
    ensures { (i : ℕ) → i < 4 → slice_index result i ≡ slice_index coefs.now (j + i) }
{
    [
        Split::of(coefs[j]),
        Split::of(coefs[j + 1]),
        Split::of(coefs[j + 2]),
        Split::of(coefs[j + 3]),
    ]
}

// The same, with two pieces in one pass.
fn add_pairs(
    in_first: &[u8],
    in_second: &[u8],
    pieces: &[Piece],
    from: usize,
    at: usize,
    first: &mut [u8],
    second: &mut [u8],
)
    requires in_first { length pieces.now ≤ length in_first.now }
    requires in_second { length pieces.now ≤ length in_second.now }
    requires from { from ≤ length pieces.now }
    requires long { All (λ p. at + length first.old ≤ length p.bytes) pieces.now }
    requires same { length second.old ≡ length first.old }
    ensures first { IsAdded (slice_index in_first.now) pieces.now from at first.old first.new }
    ensures second { IsAdded (slice_index in_second.now) pieces.now from at second.old second.new }
{
    let len = first.len();
    let mut j = from;
    'pairs: while j + 2 <= pieces.len() {
        let a = part(&pieces[j], at, len);
        let b = part(&pieces[j + 1], at, len);
        let coefs = [in_first[j], in_first[j + 1]];
        let others = [in_second[j], in_second[j + 1]];
        mul_add_two_into(coefs, others, a, b, first, second);
        j += 2;
    }
    if j < pieces.len() {
        let last = part(&pieces[j], at, len);
        mul_add_into(in_first[j], last, first);
        mul_add_into(in_second[j], last, second);
    }
}

pub(crate) fn part(piece: &Piece, at: usize, len: usize) -> &[u8]
    requires { at + len ≤ length piece.now.bytes }
    ensures bytes { (k : ℕ) → k < len → slice_index result.now k ≡ slice_index piece.now.bytes (at + k) }
    ensures length { length result.now ≡ len }
{
    &piece.bytes.bytes()[at..at + len]
}
