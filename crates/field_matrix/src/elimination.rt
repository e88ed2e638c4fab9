// One step of Gauss and Jordan's elimination, on the rows themselves or on those that record it.
ghost use Rattle.std.specs.Prelude.{◌≡◌, ◌≢◌, ℕ, ◌<◌};
ghost use Rattle.field_matrix.specs.Grids.{IsIdentity, entry};
ghost use Rattle.field_matrix.specs.Steps.{step};

use field_byte::inv;
use lane_kernel::mul_add_into;

pub(crate) fn identity<const F: usize>() -> [[u8; F]; F]
    ensures { IsIdentity F (entry result) }
{
    let mut rows = [[0u8; F]; F];
    'rows: for i in 0..F {
        let mut row = [0u8; F];
        row[i] = 1;
        rows[i] = row;
    }
    rows
}

// `rows` after the step that makes row `p` of `work` 1 in column `p`, and each other row 0 there.
pub(crate) fn step<const F: usize>(
    p: usize,
    work: &[[u8; F]; F],
    rows: &[[u8; F]; F],
) -> [[u8; F]; F]
    requires p { p < F }
    requires pivot { entry work.now p p ≢ 0 }
    ensures { (i j : ℕ) → i < F → j < F → entry result i j ≡ step p (entry work.now) (entry rows.now) i j }
{
    let row_p = rows[p];
    let mut divided = [0u8; F];
    mul_add_into(inv(work[p][p]), &row_p, &mut divided);
    let mut next = *rows;
    'rows: for r in 0..F {
        let mut row = rows[r];
        mul_add_into(work[r][p], &divided, &mut row);
        next[r] = row;
    }
    next[p] = divided;
    next
}
