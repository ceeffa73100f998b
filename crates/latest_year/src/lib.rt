// The latest year of a triangle: what is paid in it, Y, and what is reported in it, B.
#![tactic(auto)]

ghost use Rattle.std.specs.Prelude.{◌≡◌, ℕ, ◌+◌, ◌*◌, ◌≤◌, ◌<◌, nat_abs, take};
ghost use Rattle.rules.specs.Lists.{total};
ghost use Rattle.rules.specs.Record.{million, most_amount};
ghost use Rattle.rules.specs.Completion.{most_ultimate, ultimate};
ghost use Rattle.rules.specs.Growth.{latest_reported, latest_paid};
ghost use Rattle.triangle.specs.Columns.{Increments};

use rules::MILLION;

// Y, what is paid in the latest year: the last increment of each row.
pub fn latest_paid(k: usize, increments: &[i64; 136]) -> i64
    requires { (k < 16) × Increments increments.now }
    ensures { (result ≡ latest_paid k increments.now) × (nat_abs result ≤ 16 * most_amount) }
{
    let n = k + 1;
    let mut sum: i64 = 0;
    let mut at: usize = 0;
    for i in 0..n {
        sum += increments[at + (k - i)];
        at += n - i;
    }
    sum
}

// B, what is reported in the latest year: rounded down once, after the last row.
pub fn latest_reported(
    k: usize,
    reporting: &[u64; 16],
    paid: &[u64; 16],
    provisions: &[u64; 16],
) -> u64
    requires { (k < 16)
        × (((i : ℕ) → i ≤ k → ultimate paid.now provisions.now i ≤ most_ultimate) × (total (take (k + 1) reporting.now) ≡ million)) }
    ensures { (result ≡ latest_reported k reporting.now paid.now provisions.now) × (result ≤ most_ultimate) }
{
    let n = k + 1;
    let mut sum: u64 = 0;
    for j in 0..n {
        let i = k - j;
        sum += reporting[j] * (paid[i] + provisions[i]);
    }
    sum / MILLION
}
