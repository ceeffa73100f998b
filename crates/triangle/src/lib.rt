// Question 6 of a row of a triangle, and what passing it says of the increments' cumulatives, of the sums of their columns and of the averages.
#![tactic(auto)]

ghost use Rattle.std.specs.Prelude.{◌≡◌, ◌≤◌, ◌<◌};
ghost use Rattle.rules.specs.Triangle.{row_start, row_passes};
ghost use Rattle.triangle.specs.Columns.{Increments};

use rules::MOST_CUMULATIVE;

// Question 6 of row i, whose increments start at place `at`: whether every cumulative is from 0 to the most.
pub fn row_passes(increments: &[i64; 136], k: usize, i: usize, at: usize) -> bool
    requires { Increments increments.now × ((k < 16) × ((i ≤ k) × (at ≡ row_start k i))) }
    ensures { result ≡ row_passes k increments.now i }
{
    let mut sum: i64 = 0;
    let count = k + 1 - i;
    for x in &increments[at..at + count] {
        sum += *x;
        if sum < 0 || sum > MOST_CUMULATIVE as i64 {
            return false;
        }
    }
    true
}
