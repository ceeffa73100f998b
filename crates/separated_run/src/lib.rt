// A run on figures whose separation was accepted: the tail under questions 18 and 19, and what follows it.
#![tactic(auto)]

ghost use Rattle.std.specs.Prelude.{◌≤◌, length};
ghost use Rattle.rules.specs.Results.{result_count};
ghost use Rattle.rules.specs.Engine.{later_questions};
ghost use Rattle.reserving.specs.Stages.{Separated, Answers};

use reserving::finish;
use rules::{ACCEPTED, Figures};
use tail::carry_tail;

// The questions from 18 and 19 on of figures whose development factors and separation were accepted, and the list where all say yes.
pub fn run_separated<'a>(
    year: u64,
    figures: &Figures,
    square: &[[i64; 16]; 16],
    development: &[u64; 16],
    paid: &[u64; 16],
    shares: &'a [u64; 16],
    levels: &'a [u64; 16],
    out: &mut [i64],
) -> u64
    requires { Separated figures.now square.now development.now paid.now shares.now levels.now
        × (result_count figures.now.k ≤ length out.old) }
    ensures { Answers (later_questions year figures.now) year figures.now out.old out.new result }
{
    let mut tails = [0u64; 16];
    let carried = carry_tail(
        figures.k,
        figures.tail,
        &figures.exposures,
        &figures.indices,
        &mut tails,
    );
    if carried != ACCEPTED {
        return carried;
    }
    finish(
        year,
        figures,
        square,
        development,
        paid,
        shares,
        levels,
        &tails,
        out,
    )
}
