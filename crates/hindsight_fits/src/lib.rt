// The fits of a hindsight run: what the separation gives of the triangle without its latest diagonals, once for each step.
#![tactic(auto)]

ghost use Rattle.std.specs.Prelude.{◌≡◌, ◌+◌, ◌-◌, ◌<◌, length};
ghost use Rattle.std.proofs.lemmas.List.Edits.{sets};
ghost use Rattle.rules.specs.Lists.{up_to};
ghost use Rattle.totals.specs.CellSizes.{Cells};
ghost use Rattle.totals.specs.Squares.{cut_of};
ghost use Rattle.totals.specs.Summed.{Summed};
ghost use Rattle.hindsight_fits.specs.Fits.{fit_mark, fit_level, fit_shares};

use separation::separate_totals;
use signed_sums::subtract;

// Drops diagonal h + 1: the totals of the triangle of last year h, from those of the triangle with it.
fn drop_diagonal(rows: &[[i64; 16]], h: usize, columns: &mut [i64; 16], diagonals: &mut [i64; 16])
    requires { (Cells rows.now × ((h + 1 < length rows.now) × (h + 1 < 16))) × Summed (cut_of rows.now 0 (h + 1)) (h + 1) columns.old diagonals.old }
    ensures { Summed (cut_of rows.now 0 h) h columns.new diagonals.new }
{
    let last = h + 1;
    let n = last + 1;
    for j in 0..n {
        let i = last - j;
        columns[j] = subtract(columns[j], rows[i][j]);
    }
    diagonals[last] = 0;
}

// The fits of the steps of last years n down to 1 over rows of averages, largest triangle first, from the totals of the triangle of last year n + 1: the mark, the latest level
// and the shares of each, zeros where it is marked. The totals are those of the smallest triangle then.
pub fn fill_fits(
    rows: &[[i64; 16]],
    n: usize,
    columns: &mut [i64; 16],
    diagonals: &mut [i64; 16],
    marks: &mut [u64; 16],
    levels: &mut [u64; 16],
    shares: &mut [[u64; 16]; 16],
)
    requires { (Cells rows.now × ((n + 1 < length rows.now) × (n + 1 < 16))) × Summed (cut_of rows.now 0 (n + 1)) (n + 1) columns.old diagonals.old }
    ensures { (marks.new ≡ sets marks.old 0 (up_to (λ m. fit_mark rows.now (n - m)) n))
        × ((levels.new ≡ sets levels.old 0 (up_to (λ m. fit_level rows.now (n - m)) n))
        × ((shares.new ≡ sets shares.old 0 (up_to (λ m. fit_shares rows.now (n - m)) n))
        × Summed (cut_of rows.now 0 1) 1 columns.new diagonals.new)) }
{
    for m in 0..n {
        let h = n - m;
        drop_diagonal(rows, h, columns, diagonals);
        let found = separate_totals(columns, diagonals, h);
        let factors = found.factors;
        marks[m] = found.answer;
        levels[m] = factors.levels[h];
        shares[m] = factors.shares;
    }
}
