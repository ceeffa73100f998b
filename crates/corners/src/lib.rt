// The totals T of a square of averages, from the year k down over the totals of its columns and diagonals, and question 8.
#![tactic(auto)]

ghost use Rattle.std.specs.Prelude.{◌≡◌, ℕ, ◌≤◌, ◌<◌, length, get_or};
ghost use Rattle.rules.specs.Separation.{billion};
ghost use Rattle.corners.specs.Corners.{CornersFound};

// The totals T from k down to 0 go into the list as far as question 8 says yes; whether it does in every year.
pub fn fill_corners(
    columns: &[u64; 16],
    diagonals: &[u64; 16],
    k: usize,
    totals: &mut [u64; 16],
) -> bool
    requires { (k < 16) × (((i : ℕ) → i ≤ k → get_or diagonals.now i 0 ≤ billion) × (length totals.old ≡ 16)) }
    ensures { CornersFound k columns.now diagonals.now totals.new result }
{
    let mut t = diagonals[k];
    totals[k] = t;
    for h in (0..k).rev() {
        if t <= columns[h + 1] {
            return false;
        }
        t = t - columns[h + 1] + diagonals[h];
        totals[h] = t;
    }
    true
}
