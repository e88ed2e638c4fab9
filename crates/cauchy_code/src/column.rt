ghost use Rattle.std.specs.Prelude.{◌≡◌, ℕ, ◌<◌, ◌≤◌, All, length, replicate, slice_index};
ghost use Rattle.group_types.specs.Pieces.{numbers_of};
ghost use Rattle.cauchy_code.specs.Solving.{AreBytesIn, known_weight, lost_byte};

use crate::coefficient;
use field_byte::mul;
use group_types::Piece;
use lane_kernel::mul_add_into;

// A lost column: the rows with their weights in it, and then, with the same weights, what the known
// columns have in each row.
pub(crate) fn write_column(m: u32, weights: &[u8], rows: &[Piece], known: &[Piece], into: &mut [u8])
    requires m { m ≤ 4 }
    requires weights { length weights.now ≡ length rows.now }
    requires rows_below { All (λ i. i < m) (numbers_of rows.now) }
    requires known_below { All (λ d. d ≤ 15) (numbers_of known.now) }
    requires rows_long { All (λ p. length p.bytes ≡ length into.old) rows.now }
    requires known_long { All (λ p. length p.bytes ≡ length into.old) known.now }
    ensures { (at : ℕ) → slice_index into.new at ≡ lost_byte m (slice_index weights.now) rows.now known.now at }
{
    clear(into);
    'rows: for a in 0..rows.len() {
        mul_add_into(weights[a], rows[a].bytes.bytes(), into);
    }
    'known: for piece in known {
        let weight = known_weight(m, weights, rows, piece.number);
        mul_add_into(weight, piece.bytes.bytes(), into);
    }
}

pub(crate) fn clear(bytes: &mut [u8])
    ensures { bytes.new ≡ replicate (length bytes.old) 0 }
{
    bytes.fill(0);
}

/// What stands in pieces are bytes.
pub(crate) fn are_bytes(pieces: &[Piece])
    ensures { AreBytesIn pieces.now }
{
    'pieces: for piece in pieces {
        read(piece.bytes.bytes());
    }
}

fn read(bytes: &[u8])
    ensures { (at : ℕ) → slice_index bytes.now at < 256 }
{
    let _long = bytes.len();
}

// The weight of partition `d`'s known column where the rows have these weights.
pub(crate) fn known_weight(m: u32, weights: &[u8], rows: &[Piece], d: u32) -> u8
    requires m { m ≤ 4 }
    requires d { d ≤ 15 }
    requires weights { length weights.now ≡ length rows.now }
    requires rows_below { All (λ i. i < m) (numbers_of rows.now) }
    ensures { result ≡ known_weight (length rows.now) m (slice_index weights.now) rows.now d }
{
    let mut weight = 0u8;
    'rows: for a in 0..rows.len() {
        weight ^= mul(weights[a], coefficient(m, rows[a].number, d));
    }
    weight
}
