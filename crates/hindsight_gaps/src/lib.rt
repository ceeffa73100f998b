// The gaps of a step of a hindsight run: what was paid in the next payment year minus what the fit forecasts for it.
#![tactic(auto)]

ghost use Rattle.std.specs.Prelude.{◌≡◌, map, ℕ, ◌+◌, ◌-◌, ◌*◌, ◌≤◌, ◌<◌, pos, nat_abs, ◌-ℤ◌, length, get_or};
ghost use Rattle.std.proofs.lemmas.List.Edits.{sets};
ghost use Rattle.rules.specs.Lists.{total, up_to};
ghost use Rattle.rules.specs.Record.{million, most_index, most_amount};
ghost use Rattle.rules.specs.Separation.{billion};
ghost use Rattle.rules.specs.Completion.{payment_of};
ghost use Rattle.rules.specs.Hindsight.{step_gaps, step_entries};
ghost use Rattle.hindsight_gaps.specs.Fitted.{most_gap, Given, Fitted, gap_with};

use completion::payment;
use entries::{put_integers, put_natural, size_of};
use rules::{ACCEPTED, MILLION};
use signed_sums::subtract;

// Actual minus forecast payment.
fn gap_of(paid: i64, claims: u64, share: u64, level: u64) -> i64
    requires { (nat_abs paid ≤ most_amount) × ((claims ≤ million) × ((share ≤ billion) × (level ≤ 5 * billion))) }
    ensures { (result ≡ paid -ℤ pos (payment_of claims share level)) × (nat_abs result ≤ most_gap) }
{
    let forecast = payment(claims, share, level);
    subtract(paid, forecast as i64)
}

// The gaps of origin years 1 to h in payment year h + 1, at the future level, go into out from place `at` on; the sum of their sizes.
fn put_gaps(
    out: &mut [i64],
    at: usize,
    k: usize,
    h: usize,
    level: u64,
    exposures: &[u64; 16],
    increments: &[i64; 136],
    shares: &[u64; 16],
) -> u64
    requires { (Given k exposures.now increments.now × ((h < k) × (at + h ≤ length out.old)))
        × ((level ≤ 5 * billion) × ((j : ℕ) → get_or shares.now j 0 ≤ billion)) }
    ensures { (result ≡ total (map nat_abs (up_to (λ m. gap_with k exposures.now increments.now shares.now level h (m + 1)) h)))
        × ((result ≤ h * most_gap)
        × (out.new ≡ sets out.old at (up_to (λ m. gap_with k exposures.now increments.now shares.now level h (m + 1)) h))) }
{
    let mut sum: u64 = 0;
    // where row m + 1 starts
    let mut start = k + 1;
    for m in 0..h {
        let i = m + 1;
        let j = h - m;
        let gap = gap_of(increments[start + j], exposures[i], shares[j], level);
        out[at + m] = gap;
        sum += size_of(gap);
        start += k - m;
    }
    sum
}

// The entries of the step of last year h with the trial index go into out from place `at` on: the mark, and the gaps, zeros where it is marked. The sum of the gaps' sizes.
pub fn put_step(
    out: &mut [i64],
    at: usize,
    k: usize,
    h: usize,
    index: u64,
    mark: u64,
    latest: u64,
    exposures: &[u64; 16],
    increments: &[i64; 136],
    shares: &[u64; 16],
) -> u64
    requires { (Given k exposures.now increments.now × ((h < k) × (at + (1 + h) ≤ length out.old)))
        × ((index ≤ most_index) × Fitted k exposures.now increments.now h mark latest shares.now) }
    ensures { (result ≡ total (map nat_abs (step_gaps k exposures.now increments.now h index)))
        × ((result ≤ h * most_gap)
        × (out.new ≡ sets out.old at (step_entries k exposures.now increments.now index h))) }
{
    let next = put_natural(out, at, mark);
    if mark != ACCEPTED {
        let zeros = [0i64; 16];
        put_integers(out, next, &zeros, h);
        return 0;
    }
    put_gaps(
        out,
        next,
        k,
        h,
        latest * index / MILLION,
        exposures,
        increments,
        shares,
    )
}
