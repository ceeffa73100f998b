// The year of which question 7 or 13 says no.
#![tactic(auto)]

ghost use Rattle.std.specs.Prelude.{◌≡◌, false, ◌≤◌, ◌<◌, leb, ltb, pos, get_or, position};
ghost use Rattle.std.specs.Int.Signed.{lt_z};
ghost use Rattle.rules.specs.Ladder.{factors_pass};
ghost use Rattle.entries.specs.Leading.{leading};
ghost use Rattle.ladder.specs.Columns.{developed_in, base_in, Ladderable};
ghost use Rattle.reasons.specs.Reasons.{first_below, first_refused};

use ladder::development_factors;
use rules::MOST_FACTOR;

// Where the first total below 0 stands.
fn place_below(totals: &[i64]) -> Option<usize>
    ensures { result ≡ position (λ x. lt_z x (pos 0)) totals.now }
{
    totals.iter().position(|x| *x < 0)
}

// The first of the years 0 to k whose total is below 0, or k + 1.
#[tactic(auto, using(crate::proofs::Placed::first_below_placed))]
pub fn first_below(totals: &[i64; 16], k: usize) -> usize
    requires { k < 16 }
    ensures { result ≡ first_below (λ i. get_or totals.now i (pos 0)) k }
{
    let n = k + 1;
    place_below(&totals[..n]).unwrap_or(n)
}

// Where the first number above the most stands.
fn place_above(numbers: &[u64], most: u64) -> Option<usize>
    ensures { result ≡ position (λ x. ltb most x) numbers.now }
{
    numbers.iter().position(|x| *x > most)
}

// The first of n numbers that is above the most, or n.
pub fn first_above(numbers: &[u64; 16], n: usize, most: u64) -> usize
    requires { n ≤ 16 }
    ensures { result ≡ leading (λ h. leb (get_or numbers.now h 0) most) n }
{
    place_above(&numbers[..n], most).unwrap_or(n)
}

// The first development year of which question 13 says no, from the column sums of the given cumulatives and the paid cumulatives of the years 0 to k. The ladder stores the
// factors before it and no other.
pub fn first_refused(columns: &[u64; 16], paid: &[u64; 16], k: usize) -> usize
    requires { Ladderable k columns.now paid.now × (factors_pass k (developed_in columns.now) (base_in k columns.now paid.now) ≡ false) }
    ensures { (result ≡ first_refused (developed_in columns.now) (base_in k columns.now paid.now) k) × (result < k) }
{
    let mut factors = [MOST_FACTOR + 1; 16];
    development_factors(k, columns, paid, &mut factors);
    first_above(&factors, k, MOST_FACTOR)
}
