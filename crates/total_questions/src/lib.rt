// Questions 7 and 8 of the totals of a square of averages, and what the walk down its years is made over.
#![tactic(auto)]

ghost use Rattle.std.specs.Prelude.{◌≡◌, true, ◌&&◌, List, ℕ, ◌≤◌, ◌<◌, ℤ, pos, nat_abs, length, get_or};
ghost use Rattle.std.specs.Int.Signed.{le_z};
ghost use Rattle.rules.specs.Lists.{below, every};
ghost use Rattle.rules.specs.Triangle.{sum_to};
ghost use Rattle.rules.specs.Separation.{billion};
ghost use Rattle.totals.specs.CellSizes.{most_total};
ghost use Rattle.totals.specs.Summed.{Summed};
ghost use Rattle.total_questions.specs.TotalQuestions.{SizesOf, TotalsAnswered};

use corners::fill_corners;
use rules::{ACCEPTED, BILLION};

// Question 7, of the first n totals; where it says yes, their sizes are in v and d.
fn totals_pass(
    columns: &[i64; 16],
    diagonals: &[i64; 16],
    n: usize,
    v: &mut [u64; 16],
    d: &mut [u64; 16],
) -> bool
    requires { (n ≤ 16)
        × (((i : ℕ) → i < n → nat_abs (get_or columns.now i (pos 0)) ≤ most_total) × ((length v.old ≡ 16) × (length d.old ≡ 16))) }
    ensures { (result ≡ every (λ i. le_z (pos 0) (get_or columns.now i (pos 0))) (below n)
        && (every (λ i. le_z (pos 0) (get_or diagonals.now i (pos 0))) (below n)
        && le_z (sum_to (λ i. get_or columns.now i (pos 0)) n) (pos billion)))
        × (result ≡ true → SizesOf n columns.now v.new × SizesOf n diagonals.now d.new) }
{
    let mut sum: u64 = 0;
    for i in 0..n {
        let a = columns[i];
        let b = diagonals[i];
        if a < 0 || b < 0 {
            return false;
        }
        let x = a as u64;
        v[i] = x;
        d[i] = b as u64;
        sum += x;
    }
    sum <= BILLION
}

// Questions 7 and 8 of the totals of a square of averages: where both say yes, the sizes of the totals are in v and d and the totals T in corners, for the walk.
pub fn totals_answer(
    columns: &[i64; 16],
    diagonals: &[i64; 16],
    k: usize,
    v: &mut [u64; 16],
    d: &mut [u64; 16],
    corners: &mut [u64; 16],
) -> u64
    requires { (k < 16) × (((s : List (List ℤ)) × Summed s k columns.now diagonals.now)
        × ((length v.old ≡ 16) × ((length d.old ≡ 16) × (length corners.old ≡ 16)))) }
    ensures { TotalsAnswered k columns.now diagonals.now v.new d.new corners.new result }
{
    if !totals_pass(columns, diagonals, k + 1, v, d) {
        return 7;
    }
    if !fill_corners(v, d, k, corners) {
        return 8;
    }
    ACCEPTED
}
