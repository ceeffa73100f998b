// The averages of a row of a triangle with the totals of their columns and diagonals, the sums of the cumulatives' columns, and the row's paid cumulative.
#![tactic(auto)]

ghost use Rattle.std.specs.Prelude.{◌≡◌, true, ◌+◌, ◌-◌, ◌≤◌, ◌<◌, nat_abs, get_or};
ghost use Rattle.std.proofs.lemmas.List.Edits.{sets};
ghost use Rattle.rules.specs.Lists.{up_to, below, every};
ghost use Rattle.rules.specs.Record.{million, most_amount};
ghost use Rattle.rules.specs.Triangle.{row_start, paid_of, row_passes, paid_to, average_of, averages_of, TotalsSoFar, CellPassed};
ghost use Rattle.totals.specs.CellSizes.{TotalsSmall};
ghost use Rattle.triangle.specs.Columns.{Increments, Exposures, column_sum};

use averages::average;
use totals::add_cell;

// The average of the increment in row i and column j, added to the totals of its column and of its diagonal (totals::add_cell).
fn add_average(
    paid: i64,
    claims: u64,
    i: usize,
    j: usize,
    columns: &mut [i64; 16],
    diagonals: &mut [i64; 16],
) -> i64
    requires { ((nat_abs paid ≤ most_amount) × ((1 ≤ claims) × (claims ≤ million)))
        × ((i + j < 16) × (TotalsSmall columns.old × TotalsSmall diagonals.old)) }
    ensures { (result ≡ average_of paid claims)
        × CellPassed (average_of paid claims) i j columns.old diagonals.old columns.new diagonals.new }
{
    let cell = average(paid, claims);
    add_cell(cell, i, j, columns, diagonals);
    cell
}

// The averages of row i, which passes question 6, go into a row of the square and are added to the totals of their columns and diagonals; its cumulatives are added to
// the sums of their columns over the rows before it. Answers its paid cumulative.
pub fn fill_row(
    row: &mut [i64; 16],
    sums: &mut [u64; 16],
    columns: &mut [i64; 16],
    diagonals: &mut [i64; 16],
    increments: &[i64; 136],
    exposures: &[u64; 16],
    k: usize,
    i: usize,
    at: usize,
) -> u64
    requires { Increments increments.now
        × ((k < 16)
        × ((i ≤ k)
        × ((at ≡ row_start k i)
        × (Exposures k exposures.now
        × ((every (row_passes k increments.now) (below (i + 1)) ≡ true)
        × ((sums.old ≡ up_to (column_sum k increments.now i) 16)
        × TotalsSoFar (averages_of k exposures.now increments.now) i 0 columns.old diagonals.old)))))) }
    ensures { (result ≡ paid_to k increments.now i)
        × ((row.new
        ≡ sets row.old 0 (up_to (λ j. average_of (paid_of k increments.now i j) (get_or exposures.now i 0)) (k + 1 - i)))
        × ((sums.new ≡ up_to (column_sum k increments.now (i + 1)) 16)
        × TotalsSoFar (averages_of k exposures.now increments.now) (i + 1) 0 columns.new diagonals.new)) }
{
    let claims = exposures[i];
    let mut sum: i64 = 0;
    let cells = k + 1 - i;
    for j in 0..cells {
        let x = increments[at + j];
        sum += x;
        row[j] = add_average(x, claims, i, j, columns, diagonals);
        sums[j] += sum as u64;
    }
    sum as u64
}
