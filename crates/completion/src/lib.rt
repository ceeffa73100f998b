// Completing the triangle: future levels, payments and, with the tail payments, provisions; and question 11.
#![tactic(auto)]

ghost use Rattle.std.specs.Prelude.{◌≡◌, ℕ, ◌+◌, ◌*◌, ◌≤◌, ◌<◌, get_or};
ghost use Rattle.std.proofs.lemmas.List.Edits.{sets};
ghost use Rattle.rules.specs.Lists.{total, up_to, padded, joined};
ghost use Rattle.rules.specs.Record.{million, most_index};
ghost use Rattle.rules.specs.Triangle.{most_cumulative};
ghost use Rattle.rules.specs.Separation.{billion};
ghost use Rattle.rules.specs.Completion.{future_levels, payment_of, payment_row, provision, provisions, ultimates_pass};
ghost use Rattle.completion.specs.Asked.{Completable, most_payment, rows_asked};

use rules::{BILLION, MILLION, MOST_ULTIMATE};

// L_1 to L_k go into the list, L_t at place t - 1.
pub fn fill_levels(latest: u64, indices: &[u64; 16], k: usize, levels: &mut [u64; 16])
    requires { (k < 16) × ((latest ≤ billion) × ((t : ℕ) → get_or indices.now t 0 ≤ most_index)) }
    ensures { levels.new ≡ sets levels.old 0 (future_levels k latest indices.now) }
{
    for (t, index) in indices[..k].iter().enumerate() {
        levels[t] = latest * index / MILLION;
    }
}

// The payment of a cell: its unit is rounded first, in hundredths a claim.
pub fn payment(claims: u64, share: u64, level: u64) -> u64
    requires { (claims ≤ million) × ((share ≤ billion) × (level ≤ 5 * billion)) }
    ensures { (result ≡ payment_of claims share level) × (result ≤ most_payment) }
{
    let unit = share * level / BILLION;
    claims * unit / 100
}

// The payments of row i go into the list from place `at` on; their sum.
fn put_row(
    all: &mut [u64; 120],
    at: usize,
    exposures: &[u64; 16],
    shares: &[u64; 16],
    levels: &[u64; 16],
    k: usize,
    i: usize,
) -> u64
    requires { Completable k exposures.now shares.now levels.now × ((i ≤ k) × (at + i ≤ 120)) }
    ensures { (result ≡ total (payment_row k exposures.now shares.now levels.now i))
        × ((result ≤ 15 * most_payment)
        × (all.new ≡ sets all.old at (payment_row k exposures.now shares.now levels.now i))) }
{
    let mut sum: u64 = 0;
    let claims = exposures[i];
    let first = k + 1 - i;
    for m in 0..i {
        let y = payment(claims, shares[first + m], levels[m]);
        all[at + m] = y;
        sum += y;
    }
    sum
}

// The payments of the rows, and their provisions, which have the tail payments too, as far as question 11 says yes of the ultimates: the row whose ultimate is too large is the last.
pub fn complete(
    k: usize,
    exposures: &[u64; 16],
    shares: &[u64; 16],
    levels: &[u64; 16],
    tails: &[u64; 16],
    paid: &[u64; 16],
    payments: &mut [u64; 120],
    sums: &mut [u64; 16],
) -> bool
    requires { Completable k exposures.now shares.now levels.now
        × (((i : ℕ) → get_or tails.now i 0 ≤ most_payment) × ((i : ℕ) → get_or paid.now i 0 ≤ most_cumulative)) }
    ensures { (result ≡ ultimates_pass k paid.now (padded 16 0 (provisions k exposures.now shares.now levels.now tails.now)))
        × ((payments.new
        ≡ sets payments.old 0
        (joined (up_to (payment_row k exposures.now shares.now levels.now)
        (rows_asked k exposures.now shares.now levels.now tails.now paid.now))))
        × (sums.new
        ≡ sets sums.old 0
        (up_to (provision k exposures.now shares.now levels.now tails.now)
        (rows_asked k exposures.now shares.now levels.now tails.now paid.now)))) }
{
    let mut at: usize = 0;
    let n = k + 1;
    for i in 0..n {
        let sum = put_row(payments, at, exposures, shares, levels, k, i) + tails[i];
        sums[i] = sum;
        if paid[i] + sum > MOST_ULTIMATE {
            return false;
        }
        at += i;
    }
    true
}
