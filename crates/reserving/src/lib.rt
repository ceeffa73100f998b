// From figures whose separation was accepted, with their tail payments and development factors, to the result list: questions 11, 12, 15, 16, 17 and 14.
#![tactic(auto)]

ghost use Rattle.std.specs.Prelude.{◌≤◌, length};
ghost use Rattle.rules.specs.Results.{result_count};
ghost use Rattle.rules.specs.Engine.{last_questions};
ghost use Rattle.reserving.specs.Stages.{Separated, Tailed, Answers};

use completion::fill_levels;
use rules::{ACCEPTED, Figures};
use ulae_ratio::ratio_of;
use whole_list::put_results;

// The questions from 11 on of figures whose development factors and separation were accepted and whose tail was carried on, and the list where all say yes. The
// latest diagonal is the latest level.
pub fn finish<'a>(
    year: u64,
    figures: &Figures,
    square: &[[i64; 16]; 16],
    factors: &[u64; 16],
    paid: &[u64; 16],
    shares: &'a [u64; 16],
    levels: &'a [u64; 16],
    tails: &[u64; 16],
    out: &mut [i64],
) -> u64
    requires { Separated figures.now square.now factors.now paid.now shares.now levels.now
        × (Tailed figures.now tails.now × (result_count figures.now.k ≤ length out.old)) }
    ensures { Answers (last_questions year figures.now) year figures.now out.old out.new result }
{
    let k = figures.k;
    let mut ahead = [0u64; 16];
    let mut payments = [0u64; 120];
    let mut provisions = [0u64; 16];
    fill_levels(levels[k], &figures.indices, k, &mut ahead);
    if !completion::complete(
        k,
        &figures.exposures,
        shares,
        &ahead,
        tails,
        paid,
        &mut payments,
        &mut provisions,
    ) {
        return 11;
    }
    let used = ratio_of(
        year,
        k,
        &figures.increments,
        &figures.reporting,
        figures.weight,
        &figures.ulae,
        paid,
        &provisions,
    );
    if used.answer != ACCEPTED {
        return used.answer;
    }
    let mut completed = [0u64; 120];
    if !ladder::complete(k, paid, factors, &mut completed) {
        return 14;
    }
    put_results(
        out,
        k,
        square,
        shares,
        levels,
        &ahead,
        &payments,
        &provisions,
        paid,
        &figures.reporting,
        figures.weight,
        used.ratio,
        factors,
        &completed,
        tails,
    );
    ACCEPTED
}
