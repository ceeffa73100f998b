// The factors of Taylor's separation, for the walk down the years: the running share of the year below, the level of a year, no factors; and questions 9 and 10.
#![tactic(auto)]

ghost use Rattle.std.specs.Prelude.{◌≡◌, [], ◌∷◌, ◌+◌, ◌-◌, ◌*◌, ◌/◌, ◌≤◌, ◌<◌, leb, get_or, take};
ghost use Rattle.rules.specs.Lists.{every, between};
ghost use Rattle.rules.specs.Questions.{first_no};
ghost use Rattle.rules.specs.Separation.{billion, no_factors};

use entries::within;
use rules::{ACCEPTED, BILLION, Factors};

// The running share of the year below h, from that of h.
pub fn running_below(columns: &[u64; 16], corners: &[u64; 16], h: usize, a: u64) -> u64
    requires { (get_or columns.now h 0 < get_or corners.now h 0) × ((get_or corners.now h 0 ≤ billion) × ((a ≤ billion) × (h < 16))) }
    ensures { (result ≡ a * (get_or corners.now h 0 - get_or columns.now h 0) / get_or corners.now h 0) × (result ≤ a) }
{
    let t = corners[h];
    a * (t - columns[h]) / t
}

// The level of year h, of which a is the running share; 0 where a is 0.
pub fn level_of(diagonals: &[u64; 16], h: usize, a: u64) -> u64
    requires { (get_or diagonals.now h 0 ≤ billion) × (h < 16) }
    ensures { result ≡ get_or diagonals.now h 0 * billion / a }
{
    if a == 0 {
        return 0;
    }
    diagonals[h] * BILLION / a
}

// No factors.
pub fn no_factors(k: usize) -> Factors
    ensures { result ≡ no_factors k }
{
    let zeros = [0u64; 16];
    Factors {
        shares: zeros,
        levels: zeros,
        k,
    }
}

// Questions 9 and 10 of the factors. The running shares are the less the earlier the year, so the first share tells question 9.
#[tactic(auto, using(std::proofs::lemmas::Bool::Decides::nat_tests), unfolding(rules::specs::Questions::first_no))]
pub fn factors_answer<'a>(shares: &'a [u64; 16], levels: &'a [u64; 16], k: usize) -> u64
    requires { k < 16 }
    ensures { result
        ≡ first_no ((9, leb 1 (get_or shares.now 0 0)) ∷ (10, every (between 0 billion) (take (k + 1) levels.now)) ∷ []) }
{
    if shares[0] < 1 {
        return 9;
    }
    if !within(levels, k + 1, 0, BILLION) {
        return 10;
    }
    ACCEPTED
}
