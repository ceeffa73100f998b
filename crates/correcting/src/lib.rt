// The ratio that a valuation year uses: the plain ratio, corrected from 2027 on, under questions 15, 16 and 17.
#![tactic(auto)]

ghost use Rattle.rules.specs.Growth.{latest_reported, latest_paid, divisor_of};
ghost use Rattle.triangle.specs.Columns.{Increments};
ghost use Rattle.expense.specs.Reservable.{Reservable};
ghost use Rattle.correcting.specs.UsedRatio.{RatioAnswers};

use growth::{corrects, divisor_of};
use latest_year::{latest_paid, latest_reported};
use rules::{ACCEPTED, MILLION};

// The ratio that is used where the answer is 0, and the plain one where it is a refusal's number.
#[derive(Clone, Copy)]
pub struct Used {
    pub answer: u64,
    pub ratio: u64,
}

// Questions 15, 16 and 17 of a valuation year, and the ratio that it uses.
#[tactic(auto, using(crate::proofs::Asked::divisor_read, crate::proofs::Asked::earlier, crate::proofs::Asked::fifteen, crate::proofs::Asked::sixteen, crate::proofs::Asked::seventeen, crate::proofs::Asked::corrected), unfolding(rules::specs::Questions::after_call, rules::specs::Growth::corrected_ratio, rules::specs::Growth::used_ratio))]
pub fn used_ratio(
    year: u64,
    k: usize,
    increments: &[i64; 136],
    reporting: &[u64; 16],
    weight: u64,
    paid: &[u64; 16],
    provisions: &[u64; 16],
    plain: u64,
) -> Used
    requires { Increments increments.now × Reservable k paid.now provisions.now reporting.now weight plain }
    ensures { RatioAnswers year plain (latest_paid k increments.now)
        (divisor_of weight (latest_reported k reporting.now paid.now provisions.now) (latest_paid k increments.now)) result.answer result.ratio }
{
    if !corrects(year) {
        return Used {
            answer: ACCEPTED,
            ratio: plain,
        };
    }
    let latest = latest_paid(k, increments);
    if latest < 1 {
        return Used {
            answer: 15,
            ratio: plain,
        };
    }
    let reported = latest_reported(k, reporting, paid, provisions);
    let divisor = divisor_of(weight, reported, latest as u64);
    if divisor == 0 {
        return Used {
            answer: 16,
            ratio: plain,
        };
    }
    let ratio = plain * MILLION / divisor;
    if ratio > MILLION {
        return Used {
            answer: 17,
            ratio: plain,
        };
    }
    Used {
        answer: ACCEPTED,
        ratio,
    }
}
