// The ULAE ratio that a valuation year uses, from the paid cumulatives and the ULAE totals: questions 12, 15, 16 and 17.
#![tactic(auto)]

ghost use Rattle.std.specs.Prelude.{◌+◌, take};
ghost use Rattle.rules.specs.Lists.{total};
ghost use Rattle.rules.specs.Growth.{latest_reported, latest_paid, divisor_of};
ghost use Rattle.triangle.specs.Columns.{Increments};
ghost use Rattle.ulae_ratio.specs.AskedRatio.{Rateable, RatioAsked};

use correcting::{Used, used_ratio};
use entries::sum_of;
use expense::{plain_ratio, ratio_passes};

// Question 12, and where it says yes 15, 16 and 17 of the plain ratio; a ratio of 0 where it says no.
pub fn ratio_of(
    year: u64,
    k: usize,
    increments: &[i64; 136],
    reporting: &[u64; 16],
    weight: u64,
    ulae: &[u64; 16],
    paid: &[u64; 16],
    provisions: &[u64; 16],
) -> Used
    requires { Increments increments.now × Rateable k paid.now provisions.now reporting.now ulae.now weight }
    ensures { RatioAsked year (total (take (k + 1) paid.now)) (total (take (k + 1) ulae.now)) (latest_paid k increments.now)
        (divisor_of weight (latest_reported k reporting.now paid.now provisions.now) (latest_paid k increments.now)) result.answer result.ratio }
{
    let n = k + 1;
    let total = sum_of(paid, n);
    let spent = sum_of(ulae, n);
    if !ratio_passes(total, spent) {
        return Used {
            answer: 12,
            ratio: 0,
        };
    }
    let plain = plain_ratio(total, spent);
    used_ratio(
        year, k, increments, reporting, weight, paid, provisions, plain,
    )
}
