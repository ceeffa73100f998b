// The best setting of a hindsight run: the one of the smallest sum, the first on a tie.
#![tactic(auto)]

ghost use Rattle.std.specs.Prelude.{◌≡◌, cond, ◌≤◌, ◌<◌, ltb, length, get_or};
ghost use Rattle.rules.specs.Hindsight.{best_place};

// The place of the smaller of two sums, the first of them where they are the same.
fn smaller(sums: &[u64], first: usize, second: usize) -> usize
    requires { (first < length sums.now) × (second < length sums.now) }
    ensures { result ≡ cond (ltb (get_or sums.now second 0) (get_or sums.now first 0)) second first }
{
    if sums[second] < sums[first] {
        second
    } else {
        first
    }
}

// The place of the smallest sum, from 0.
pub fn best_of(sums: &[u64]) -> usize
    requires { 1 ≤ length sums.now }
    ensures { (result ≡ best_place sums.now) × (result < length sums.now) }
{
    let n = sums.len();
    let mut best: usize = 0;
    for a in 1..n {
        best = smaller(sums, best, a);
    }
    best
}
