// Two lost columns at a time.
ghost use Rattle.std.specs.Prelude.{◌≡◌, ◌≢◌, ℕ, ◌+◌, ◌<◌, ◌≤◌, [], ◌∷◌, All, Contains, bit_xor, length, slice_index};
ghost use Rattle.group_types.specs.Pieces.{bytes_of, numbers_of, with_bytes};
ghost use Rattle.cauchy_code.specs.Columns.{KeepsOthers};
ghost use Rattle.cauchy_code.specs.Solving.{IsStarted, IsSum, parts_sum, start_sum};
ghost use Rattle.cauchy_code.specs.Parts.{HasPart, with_part};

use crate::column::clear;
use crate::pass::{add_pieces, part};
use crate::weights::Weights;
use group_types::{Piece, PieceList};
use lane_kernel::mul_four_into;

/// Writes two columns into the pieces of `d` and `e`, part by part.
pub(crate) fn write_two(
    first: &Weights,
    second: &Weights,
    rows: &[Piece],
    known: &[Piece],
    d: u32,
    e: u32,
    out: &mut PieceList,
)
    requires few_rows { length rows.now ≤ 4 }
    requires few_known { length known.now ≤ 16 }
    requires started { IsStarted first.now × IsStarted second.now }
    requires d { Contains (numbers_of out.old) d }
    requires e { Contains (numbers_of out.old) e }
    requires differ { d ≢ e }
    requires rows_long { All (λ p. length p.bytes ≡ length (bytes_of out.old d)) rows.now }
    requires known_long { All (λ p. length p.bytes ≡ length (bytes_of out.old d)) known.now }
    requires same { length (bytes_of out.old e) ≡ length (bytes_of out.old d) }
    ensures numbers { numbers_of out.new ≡ numbers_of out.old }
    ensures first { IsSum (length (bytes_of out.old d)) first.now rows.now known.now (bytes_of out.new d) }
    ensures second { IsSum (length (bytes_of out.old d)) second.now rows.now known.now (bytes_of out.new e) }
    ensures kept { KeepsOthers (d ∷ e ∷ []) out.old out.new }
{
    let mut b = [0u8; PART];
    let long = out.piece(d).len();
    let mut at = 0;
    'parts: while at < long {
        let len = PART.min(long - at);
        fill_part(first, second, rows, known, at, d, out, &mut b[..len]);
        put(out, e, at, &b[..len]);
        at += len;
    }
}

// As much of a sum as stays in the processor's nearest memory until it is copied.
const PART: usize = 2048;

// The bytes of two columns from `at` on: those of the first in its piece.
fn fill_part(
    first: &Weights,
    second: &Weights,
    rows: &[Piece],
    known: &[Piece],
    at: usize,
    d: u32,
    out: &mut PieceList,
    b: &mut [u8],
)
    requires few_rows { length rows.now ≤ 4 }
    requires few_known { length known.now ≤ 16 }
    requires started { IsStarted first.now × IsStarted second.now }
    requires rows_long { All (λ p. at + length b.old ≤ length p.bytes) rows.now }
    requires known_long { All (λ p. at + length b.old ≤ length p.bytes) known.now }
    requires there { Contains (numbers_of out.old) d }
    requires within { at + length b.old ≤ length (bytes_of out.old d) }
    ensures out { HasPart d at (length b.old) (parts_sum first.now rows.now known.now) out.old out.new }
    ensures b { (k : ℕ) → k < length b.old → slice_index b.new k ≡ parts_sum second.now rows.now known.now (at + k) }
{
    let a = out.piece_mut(d);
    let end = at + b.len();
    fill(first, second, rows, known, at, &mut a[at..end], b);
}

// The bytes of two columns from `at` on.
fn fill(
    first: &Weights,
    second: &Weights,
    rows: &[Piece],
    known: &[Piece],
    at: usize,
    a: &mut [u8],
    b: &mut [u8],
)
    requires few_rows { length rows.now ≤ 4 }
    requires few_known { length known.now ≤ 16 }
    requires started { IsStarted first.now × IsStarted second.now }
    requires rows_long { All (λ p. at + length a.old ≤ length p.bytes) rows.now }
    requires known_long { All (λ p. at + length a.old ≤ length p.bytes) known.now }
    requires same { length b.old ≡ length a.old }
    ensures a { (k : ℕ) → k < length a.old → slice_index a.new k ≡ parts_sum first.now rows.now known.now (at + k) }
    ensures b { (k : ℕ) → k < length a.old → slice_index b.new k ≡ parts_sum second.now rows.now known.now (at + k) }
{
    if rows.len() == 2 && known.len() >= 2 {
        fill_four(first, second, rows, known, at, a, b);
        add_pieces(&first.known, &second.known, known, 2, at, a, b);
    } else {
        fill_all(first, second, rows, known, at, a, b);
    }
}

// The rows, and then the known columns.
fn fill_all(
    first: &Weights,
    second: &Weights,
    rows: &[Piece],
    known: &[Piece],
    at: usize,
    a: &mut [u8],
    b: &mut [u8],
)
    requires few_rows { length rows.now ≤ 4 }
    requires few_known { length known.now ≤ 16 }
    requires rows_long { All (λ p. at + length a.old ≤ length p.bytes) rows.now }
    requires known_long { All (λ p. at + length a.old ≤ length p.bytes) known.now }
    requires same { length b.old ≡ length a.old }
    ensures a { (k : ℕ) → k < length a.old → slice_index a.new k ≡ parts_sum first.now rows.now known.now (at + k) }
    ensures b { (k : ℕ) → k < length a.old → slice_index b.new k ≡ parts_sum second.now rows.now known.now (at + k) }
{
    clear(a);
    clear(b);
    add_pieces(&first.rows, &second.rows, rows, 0, at, a, b);
    add_pieces(&first.known, &second.known, known, 0, at, a, b);
}

// What two rows and the first two known columns have in both sums, in one pass.
fn fill_four(
    first: &Weights,
    second: &Weights,
    rows: &[Piece],
    known: &[Piece],
    at: usize,
    a: &mut [u8],
    b: &mut [u8],
)
    requires two_rows { length rows.now ≡ 2 }
    requires two_known { 2 ≤ length known.now }
    requires started { IsStarted first.now × IsStarted second.now }
    requires rows_long { All (λ p. at + length a.old ≤ length p.bytes) rows.now }
    requires known_long { All (λ p. at + length a.old ≤ length p.bytes) known.now }
    requires same { length b.old ≡ length a.old }
    ensures a { (k : ℕ) → k < length a.old → slice_index a.new k ≡ start_sum first.now rows.now known.now (at + k) }
    ensures b { (k : ℕ) → k < length a.old → slice_index b.new k ≡ start_sum second.now rows.now known.now (at + k) }
{
    let len = a.len();
    let (p, q) = (part(&rows[0], at, len), part(&rows[1], at, len));
    let (r, s) = (part(&known[0], at, len), part(&known[1], at, len));
    mul_four_into(&first.start, &second.start, p, q, r, s, a, b);
}

fn put(out: &mut PieceList, d: u32, at: usize, bytes: &[u8])
    requires there { Contains (numbers_of out.old) d }
    requires within { at + length bytes.now ≤ length (bytes_of out.old d) }
    ensures { out.new ≡ with_part out.old d at bytes.now }
{
    out.piece_mut(d)[at..at + bytes.len()].copy_from_slice(bytes);
}
