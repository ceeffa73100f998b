// A run on figures: questions 6 and 13, the separation under 7 to 10, and what follows it.
#![tactic(auto)]

ghost use Rattle.std.specs.Prelude.{◌≤◌, length};
ghost use Rattle.rules.specs.Results.{result_count};
ghost use Rattle.rules.specs.Engine.{figure_questions};
ghost use Rattle.reading.specs.Reading.{Sound};
ghost use Rattle.reserving.specs.Stages.{Answers};

use ladder::development_factors;
use rules::{ACCEPTED, Figures};
use separated_run::run_separated;
use separation::separate_totals;
use triangle_rows::fill_rows;

// The questions from 6 on of figures that have passed 4 and 5, for a buffer that holds their list, and the list where all say yes.
pub fn run_figures(year: u64, figures: &Figures, out: &mut [i64]) -> u64
    requires { Sound figures.now × (result_count figures.now.k ≤ length out.old) }
    ensures { Answers (figure_questions year figures.now) year figures.now out.old out.new result }
{
    let k = figures.k;
    let mut square = [[0i64; 16]; 16];
    let mut sums = [0u64; 16];
    let mut paid = [0u64; 16];
    let mut columns = [0i64; 16];
    let mut diagonals = [0i64; 16];
    if !fill_rows(
        k,
        &figures.exposures,
        &figures.increments,
        &mut square,
        &mut sums,
        &mut paid,
        &mut columns,
        &mut diagonals,
    ) {
        return 6;
    }
    let mut development = [0u64; 16];
    if !development_factors(k, &sums, &paid, &mut development) {
        return 13;
    }
    let separation = separate_totals(&columns, &diagonals, k);
    if separation.answer != ACCEPTED {
        return separation.answer;
    }
    let factors = separation.factors;
    run_separated(
        year,
        figures,
        &square,
        &development,
        &paid,
        &factors.shares,
        &factors.levels,
        out,
    )
}
