// Sums and differences of signed numbers far below 2^63.
#![tactic(auto)]

ghost use Rattle.std.specs.Prelude.{◌≡◌, ℕ, ◌+◌, ◌*◌, ◌≤◌, ◌<◌, pos, nat_abs, ◌+ℤ◌, ◌-ℤ◌, length, get_or};
ghost use Rattle.rules.specs.Triangle.{sum_to};
ghost use Rattle.signed_sums.specs.Small.{most_figure, SizedAlong, Summed};

// x + y.
pub fn add(x: i64, y: i64) -> i64
    requires { Summed x × Summed y }
    ensures { result ≡ x +ℤ y }
{
    x + y
}

// x − y.
pub fn subtract(x: i64, y: i64) -> i64
    requires { Summed x × Summed y }
    ensures { result ≡ x -ℤ y }
{
    x - y
}

// The sum of n entries, from place `start` on, each `stride` places after the one before.
pub fn sum_along(values: &[i64], start: usize, stride: usize, n: usize) -> i64
    requires { (n ≤ 320) × (SizedAlong most_figure start stride n values.now × ((length values.now ≤ 4096) × ((i : ℕ) → i < n → start + i * stride < length values.now))) }
    ensures { result ≡ sum_to (λ i. get_or values.now (start + i * stride) (pos 0)) n }
{
    let mut sum: i64 = 0;
    for i in 0..n {
        let at = start + i * stride;
        sum += values[at];
    }
    sum
}
