// The square of the code that has given rows and lost columns.
ghost use Rattle.std.specs.Prelude.{◌≡◌, ℕ, ◌+◌, ◌<◌, ◌≤◌, All, length, slice_index};
ghost use Rattle.field_matrix.specs.Cauchy.{IsCauchy};
ghost use Rattle.field_matrix.specs.Grids.{HasBytes, entry};
ghost use Rattle.group_types.specs.Pieces.{numbers_of};
ghost use Rattle.erasure_code.specs.Columns.{AreDifferent};
ghost use Rattle.cauchy_code.specs.Solving.{lost_square};

use field_matrix::Square;
use group_types::Piece;

/// The coefficients of the rows for the lost partitions.
pub(crate) fn square<const F: usize>(m: u32, lost: &[u32], rows: &[Piece]) -> Square<F>
    requires m { m ≤ 4 }
    requires rows { length rows.now ≡ F }
    requires lost { length lost.now ≡ F }
    requires rows_below { All (λ i. i < m) (numbers_of rows.now) }
    requires lost_below { All (λ d. d ≤ 15) lost.now }
    requires rows_differ { AreDifferent (numbers_of rows.now) }
    requires lost_differ { AreDifferent lost.now }
    ensures entries { (a b : ℕ) → a < F → b < F → entry result a b ≡ lost_square m lost.now rows.now a b }
    ensures cauchy { IsCauchy F (entry result) }
    ensures bytes { HasBytes F (entry result) }
{
    Square::cauchy(&numbers(rows), &sums(m, lost))
}

fn numbers<const F: usize>(rows: &[Piece]) -> [u8; F]
    requires long { length rows.now ≡ F }
    requires below { All (λ i. i < 256) (numbers_of rows.now) }
    ensures { (a : ℕ) → a < F → slice_index result a ≡ slice_index (numbers_of rows.now) a }
{
    let mut numbers = [0u8; F];
    'rows: for a in 0..F {
        numbers[a] = rows[a].number as u8;
    }
    numbers
}

fn sums<const F: usize>(m: u32, lost: &[u32]) -> [u8; F]
    requires long { length lost.now ≡ F }
    requires m { m ≤ 4 }
    requires below { All (λ d. d ≤ 15) lost.now }
    ensures { (b : ℕ) → b < F → slice_index result b ≡ m + slice_index lost.now b }
{
    let mut sums = [0u8; F];
    'lost: for b in 0..F {
        sums[b] = (m + lost[b]) as u8;
    }
    sums
}
