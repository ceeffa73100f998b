// The averages of a triangle in a square, the totals of the averages' columns and diagonals, the sums of the cumulatives' columns, the paid cumulatives, and question 6,
// in one pass by row.
#![tactic(auto)]

ghost use Rattle.std.specs.Prelude.{◌≡◌, ◌<◌, pos, replicate};
ghost use Rattle.rules.specs.Lists.{up_to, padded};
ghost use Rattle.rules.specs.Triangle.{cumulatives_pass, paid_to, average_row, averages_of, TotalsSoFar};
ghost use Rattle.triangle.specs.Columns.{Increments, Exposures, column_sum, rows_passing};

use row_averages::fill_row;
use triangle::row_passes;

// Question 6 row by row, and of the rows before the first that fails: the averages in the square with the totals of their columns and diagonals, the sums of the
// cumulatives' columns, and the paid cumulatives. The lists of totals may hold anything before.
pub fn fill_rows(
    k: usize,
    exposures: &[u64; 16],
    increments: &[i64; 136],
    square: &mut [[i64; 16]; 16],
    sums: &mut [u64; 16],
    paid: &mut [u64; 16],
    columns: &mut [i64; 16],
    diagonals: &mut [i64; 16],
) -> bool
    requires { (k < 16)
        × (Exposures k exposures.now
        × (Increments increments.now
        × ((square.old ≡ replicate 16 (replicate 16 (pos 0)))
        × ((sums.old ≡ replicate 16 0)
        × (paid.old ≡ replicate 16 0))))) }
    ensures { (result ≡ cumulatives_pass k increments.now)
        × ((square.new
        ≡ padded 16 (replicate 16 (pos 0)) (up_to (average_row k exposures.now increments.now) (rows_passing k increments.now)))
        × ((sums.new ≡ up_to (column_sum k increments.now (rows_passing k increments.now)) 16)
        × ((paid.new ≡ padded 16 0 (up_to (paid_to k increments.now) (rows_passing k increments.now)))
        × TotalsSoFar (averages_of k exposures.now increments.now) (rows_passing k increments.now) 0
        columns.new diagonals.new))) }
{
    *columns = [0i64; 16];
    *diagonals = [0i64; 16];
    let mut at: usize = 0;
    let n = k + 1;
    for i in 0..n {
        if !row_passes(increments, k, i, at) {
            return false;
        }
        paid[i] = fill_row(
            &mut square[i],
            sums,
            columns,
            diagonals,
            increments,
            exposures,
            k,
            i,
            at,
        );
        at += n - i;
    }
    true
}
