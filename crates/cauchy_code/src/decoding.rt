ghost use Rattle.std.specs.Prelude.{◌≡◌, ℕ, ◌<◌, ◌≤◌, ◌++◌, List, All, Contains, IfOk, length, slice_index};
ghost use Rattle.field_matrix.specs.Grids.{entry};
ghost use Rattle.erasure_code.specs.Code.{decoded};
ghost use Rattle.group_types.specs.Pieces.{HaveOneLength, bytes_of, length_of, numbers_of};
ghost use Rattle.erasure_code.specs.Columns.{Agree, AreDifferent, AreOfBytes, IsEachBelow};
ghost use Rattle.cauchy_code.specs.Columns.{KeepsOthers, as_columns, columns_of};
ghost use Rattle.cauchy_code.specs.Solving.{IsSolved};

use crate::column::{are_bytes, write_column};
use crate::square::square;
use crate::two_columns::write_two;
use crate::weights::weights_of;
use field_matrix::Square;
use group_types::{Piece, PieceList, Shape};

/// Writes the columns of the lost partitions into `out`: the only ones that, with the known
/// columns, agree with the rows, which are those of Cauchy's closed form. `rows` are numbered by
/// parity processes, `known` and `out` by partitions. It prepares its coefficients once for all bytes of a piece, and takes no memory.
pub fn decode(shape: Shape, lost: &[u32], rows: &PieceList, known: &PieceList, out: &mut PieceList)
    requires partitions { IsEachBelow shape.k (lost.now ++ numbers_of known.now) }
    requires rows_differ { AreDifferent (numbers_of rows.now) }
    requires rows_below { All (λ i. i < shape.m) (numbers_of rows.now) }
    requires as_many { length rows.now ≡ length lost.now }
    requires out { All (λ d. Contains (numbers_of out.old) d) lost.now }
    requires long { HaveOneLength (rows.now ++ known.now ++ out.old) }
    ensures numbers { numbers_of out.new ≡ numbers_of out.old }
    ensures kept { KeepsOthers lost.now out.old out.new }
    ensures agrees { let n = length_of (rows.now ++ known.now ++ out.old) in
        Agree shape.k shape.m n (as_columns rows.now) (as_columns known.now) (columns_of shape.k (known.now ++ out.new)) }
    ensures only { let n = length_of (rows.now ++ known.now ++ out.old) in
        (columns : List (List ℕ)) → AreOfBytes columns → Agree shape.k shape.m n (as_columns rows.now) (as_columns known.now) columns
        → columns ≡ columns_of shape.k (known.now ++ out.new) }
    ensures closed_form { let n = length_of (rows.now ++ known.now ++ out.old) in
        All (λ l. bytes_of out.new l ≡ decoded shape.m n lost.now (as_columns rows.now) (as_columns known.now) l) lost.now }
{
    solve_any(shape.m(), lost, rows.pieces(), known.pieces(), out);
}

// The call for each number of lost columns: there are at most four, as many as rows.
fn solve_any(m: u32, lost: &[u32], rows: &[Piece], known: &[Piece], out: &mut PieceList)
    requires m { m ≤ 4 }
    requires rows { length rows.now ≡ length lost.now }
    requires rows_below { All (λ i. i < m) (numbers_of rows.now) }
    requires rows_differ { AreDifferent (numbers_of rows.now) }
    requires lost_below { All (λ d. d ≤ 15) lost.now }
    requires lost_differ { AreDifferent lost.now }
    requires known_below { All (λ d. d ≤ 15) (numbers_of known.now) }
    requires few_known { length known.now ≤ 16 }
    requires out { All (λ d. Contains (numbers_of out.old) d) lost.now }
    requires long { HaveOneLength (rows.now ++ known.now ++ out.old) }
    ensures numbers { numbers_of out.new ≡ numbers_of out.old }
    ensures kept { KeepsOthers lost.now out.old out.new }
    ensures solved { IsSolved m (length_of (rows.now ++ known.now ++ out.old)) lost.now rows.now known.now out.new }
{
    macro_rules! solve {
        ($($f:literal)*) => {
            match lost.len() {
                $($f => solve::<$f>(m, lost, rows, known, out),)*
                _ => {}
            }
        };
    }
    solve!(1 2 3 4)
}

// The lost columns, by the inverse of the square of their coefficients.
fn solve<const F: usize>(m: u32, lost: &[u32], rows: &[Piece], known: &[Piece], out: &mut PieceList)
    requires m { m ≤ 4 }
    requires count { F ≤ 4 }
    requires lost { length lost.now ≡ F }
    requires rows { length rows.now ≡ length lost.now }
    requires rows_below { All (λ i. i < m) (numbers_of rows.now) }
    requires rows_differ { AreDifferent (numbers_of rows.now) }
    requires lost_below { All (λ d. d ≤ 15) lost.now }
    requires lost_differ { AreDifferent lost.now }
    requires known_below { All (λ d. d ≤ 15) (numbers_of known.now) }
    requires few_known { length known.now ≤ 16 }
    requires out { All (λ d. Contains (numbers_of out.old) d) lost.now }
    requires long { HaveOneLength (rows.now ++ known.now ++ out.old) }
    ensures numbers { numbers_of out.new ≡ numbers_of out.old }
    ensures kept { KeepsOthers lost.now out.old out.new }
    ensures solved { IsSolved m (length_of (rows.now ++ known.now ++ out.old)) lost.now rows.now known.now out.new }
{
    are_bytes(rows);
    are_bytes(known);
    let inverse = square::<F>(m, lost, rows).invert();
    let mut b = 0;
    'columns: while b < F {
        if b + 1 < F {
            let first = weights_of(m, &row_of(&inverse, b), rows, known);
            let second = weights_of(m, &row_of(&inverse, b + 1), rows, known);
            write_two(&first, &second, rows, known, lost[b], lost[b + 1], out);
            b += 2;
        } else {
            let last = row_of(&inverse, b);
            write_column(m, &last, rows, known, out.piece_mut(lost[b]));
            b += 1;
        }
    }
}

fn row_of<const F: usize>(square: &Square<F>, row: usize) -> [u8; F]
    requires { row < F }
    ensures { (a : ℕ) → a < F → slice_index result a ≡ entry square.now row a }
{
    let mut all = [0u8; F];
    'columns: for a in 0..F {
        all[a] = square.at(row, a);
    }
    all
}
