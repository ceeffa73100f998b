// The chain ladder: development factors, and the cumulatives completed by them, under questions 13 and 14.
#![tactic(auto)]

ghost use Rattle.std.specs.Prelude.{◌≡◌, ℕ, ◌+◌, ◌≤◌, ◌<◌, leb, get_or};
ghost use Rattle.std.proofs.lemmas.List.Edits.{sets};
ghost use Rattle.rules.specs.Lists.{up_to, every};
ghost use Rattle.rules.specs.Triangle.{most_cumulative};
ghost use Rattle.rules.specs.Ladder.{development_factor, most_factor, factor_passes, factors_pass, completed_row, completed_all, completed_pass};
ghost use Rattle.entries.specs.Leading.{leading, passing};
ghost use Rattle.ladder.specs.Columns.{developed_in, base_in, Ladderable};

use rules::{MILLION, MOST_CUMULATIVE, MOST_FACTOR};

// The development factors go into the list, as far as question 13 says yes. The sum of a column but for its latest cumulative is the base B of its year,
// and the sum of the next column the sum A.
#[tactic(auto, using(crate::proofs::Stops::base_stopped, crate::proofs::Stops::factor_stopped))]
pub fn development_factors(
    k: usize,
    columns: &[u64; 16],
    paid: &[u64; 16],
    factors: &mut [u64; 16],
) -> bool
    requires { Ladderable k columns.now paid.now }
    ensures { (result ≡ factors_pass k (developed_in columns.now) (base_in k columns.now paid.now))
        × (factors.new
        ≡ sets factors.old 0
        (up_to (λ h. development_factor (developed_in columns.now h) (base_in k columns.now paid.now h))
        (leading (λ h. factor_passes (developed_in columns.now h) (base_in k columns.now paid.now h)) k))) }
{
    for h in 0..k {
        let base = columns[h] - paid[k - h];
        if base < 1 {
            return false;
        }
        let factor = MILLION * columns[h + 1] / base;
        if factor > MOST_FACTOR {
            return false;
        }
        factors[h] = factor;
    }
    true
}

// The cumulatives of row i past the diagonal go into the list from place `at` on, as far as each is within the most.
#[tactic(auto, using(crate::proofs::Stops::row_stopped))]
fn put_row(
    all: &mut [u64; 120],
    at: usize,
    paid: &[u64; 16],
    factors: &[u64; 16],
    k: usize,
    i: usize,
) -> bool
    requires { (k < 16)
        × ((i ≤ k)
        × ((at + i ≤ 120)
        × (((i : ℕ) → get_or paid.now i 0 ≤ most_cumulative) × ((h : ℕ) → get_or factors.now h 0 ≤ most_factor)))) }
    ensures { (result ≡ every (λ x. leb x most_cumulative) (completed_row k paid.now factors.now i))
        × (all.new
        ≡ sets all.old at (passing (λ x. leb x most_cumulative) (completed_row k paid.now factors.now i))) }
{
    let mut a = paid[i];
    let first = k - i;
    for t in 0..i {
        a = a * factors[first + t] / MILLION;
        if a > MOST_CUMULATIVE {
            return false;
        }
        all[at + t] = a;
    }
    true
}

// The completed cumulatives of all rows go into the list, as far as question 14 says yes.
pub fn complete(k: usize, paid: &[u64; 16], factors: &[u64; 16], all: &mut [u64; 120]) -> bool
    requires { (k < 16)
        × (((i : ℕ) → get_or paid.now i 0 ≤ most_cumulative) × ((h : ℕ) → get_or factors.now h 0 ≤ most_factor)) }
    ensures { (result ≡ completed_pass (completed_all k paid.now factors.now))
        × (all.new
        ≡ sets all.old 0 (passing (λ x. leb x most_cumulative) (completed_all k paid.now factors.now))) }
{
    let mut at: usize = 0;
    let n = k + 1;
    for i in 0..n {
        if !put_row(all, at, paid, factors, k, i) {
            return false;
        }
        at += i;
    }
    true
}
