ghost use Rattle.std.specs.Prelude.{◌≡◌, ◌≢◌, ℕ, ◌+◌, ◌<◌, ◌≤◌, bit_xor, length, slice_index};
ghost use Rattle.field_byte.specs.Field.{inverse};
ghost use Rattle.field_matrix.specs.Cauchy.{AllDiffer, AreDisjoint, HoldsInverses, IsCauchy};
ghost use Rattle.field_matrix.specs.Grids.{HasBytes, IsIdentity, entry, times};

use crate::elimination::{identity, step};
use field_byte::inv;
use std::marker::Model;

/// `F` rows of `F` field elements each. Contracts see the list of its rows.
#[derive(Drop)]
pub struct Square<const F: usize> {
    rows: [[u8; F]; F],
}

impl<const F: usize> Model for Square<F> {
    ghost use Rattle.std.specs.Prelude.{ℕ, List};
    ghost use Rattle.field_matrix.specs.Grids.{HasBytes, entry};

    ghost Value = { List (List ℕ) };

    ghost view = { λ s. s.rows };

    ghost invariant = { λ s. HasBytes F (entry s.rows) };
}

impl<const F: usize> Square<F> {
    /// The square that has in row `i` and column `j` the inverse of the sum of `rows[i]` and
    /// `columns[j]`.
    pub fn cauchy(rows: &[u8; F], columns: &[u8; F]) -> Square<F>
        requires rows { AllDiffer F rows.now }
        requires columns { AllDiffer F columns.now }
        requires apart { AreDisjoint F rows.now columns.now }
        ensures entries { HoldsInverses F rows.now columns.now (entry result) }
        ensures cauchy { IsCauchy F (entry result) }
        ensures bytes { HasBytes F (entry result) }
    {
        let mut inverses = [[0u8; F]; F];
        'rows: for i in 0..F {
            inverses[i] = cauchy_row(rows[i], columns);
        }
        Square { rows: inverses }
    }

    /// The element in this row and column.
    pub fn at(&self, row: usize, column: usize) -> u8
        requires row { row < F }
        requires column { column < F }
        ensures { result ≡ entry self.now row column }
    {
        self.rows[row][column]
    }

    /// The inverse of a Cauchy square, by elimination. No pivot is 0, so none is looked for.
    pub fn invert(&self) -> Square<F>
        requires { IsCauchy F (entry self.now) }
        ensures left { IsIdentity F (times F (entry result) (entry self.now)) }
        ensures right { IsIdentity F (times F (entry self.now) (entry result)) }
        ensures bytes { HasBytes F (entry result) }
    {
        let mut work = self.rows;
        let mut out = identity::<F>();
        'steps: for p in 0..F {
            out = step(p, &work, &out);
            work = step(p, &work, &work);
        }
        Square { rows: out }
    }
}

// The inverses of the sums of `x` and each byte of `columns`.
fn cauchy_row<const F: usize>(x: u8, columns: &[u8]) -> [u8; F]
    requires long { length columns.now ≡ F }
    requires apart { (j : ℕ) → j < F → x ≢ slice_index columns.now j }
    ensures inverses { (j : ℕ) → j < F → slice_index result j ≡ inverse (bit_xor x (slice_index columns.now j)) }
    ensures x_byte { x < 256 }
    ensures column_bytes { (j : ℕ) → slice_index columns.now j < 256 }
{
    let mut row = [0u8; F];
    'columns: for j in 0..F {
        row[j] = inv(x ^ columns[j]);
    }
    row
}
