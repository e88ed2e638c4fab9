ghost use Rattle.std.specs.Prelude.{◌≡◌, ℕ, ◌<◌, ◌≤◌, All, length, slice_index};
ghost use Rattle.group_types.specs.Pieces.{numbers_of};
ghost use Rattle.cauchy_code.specs.Solving.{IsStarted, known_weight};

use crate::column::known_weight;
use field_byte::Split;
use group_types::Piece;

/// The coefficients of the rows and of the known columns in a lost column, and those of the first two
/// of each prepared.
#[derive(Drop)]
pub(crate) struct Weights {
    pub(crate) rows: [u8; 4],
    pub(crate) known: [u8; 16],
    pub(crate) start: [Split; 4],
}

/// The weights where the rows have these.
pub(crate) fn weights_of(m: u32, by: &[u8], rows: &[Piece], known: &[Piece]) -> Weights
    requires m { m ≤ 4 }
    requires by { length by.now ≡ length rows.now }
    requires few_rows { length rows.now ≤ 4 }
    requires few_known { length known.now ≤ 16 }
    requires rows_below { All (λ i. i < m) (numbers_of rows.now) }
    requires known_below { All (λ d. d ≤ 15) (numbers_of known.now) }
    ensures started { IsStarted result }
    ensures rows { (a : ℕ) → a < length rows.now → slice_index result.rows a ≡ slice_index by.now a }
    ensures known { (j : ℕ) → j < length known.now
        → slice_index result.known j ≡ known_weight (length rows.now) m (slice_index by.now) rows.now (slice_index (numbers_of known.now) j) }
{
    let in_rows = first_of(by);
    let in_known = known_weights(m, by, rows, known);
    Weights {
        rows: in_rows,
        known: in_known,
        start: [
            Split::of(in_rows[0]),
            Split::of(in_rows[1]),
            Split::of(in_known[0]),
            Split::of(in_known[1]),
        ],
    }
}

fn first_of(by: &[u8]) -> [u8; 4]
    requires { length by.now ≤ 4 }
    ensures { (a : ℕ) → a < length by.now → slice_index result a ≡ slice_index by.now a }
{
    let mut all = [0u8; 4];
    'rows: for a in 0..by.len() {
        all[a] = by[a];
    }
    all
}

fn known_weights(m: u32, by: &[u8], rows: &[Piece], known: &[Piece]) -> [u8; 16]
    requires m { m ≤ 4 }
    requires by { length by.now ≡ length rows.now }
    requires few_known { length known.now ≤ 16 }
    requires rows_below { All (λ i. i < m) (numbers_of rows.now) }
    requires known_below { All (λ d. d ≤ 15) (numbers_of known.now) }
    ensures { (j : ℕ) → j < length known.now
        → slice_index result j ≡ known_weight (length rows.now) m (slice_index by.now) rows.now (slice_index (numbers_of known.now) j) }
{
    let mut all = [0u8; 16];
    'known: for j in 0..known.len() {
        all[j] = known_weight(m, by, rows, known[j].number);
    }
    all
}
