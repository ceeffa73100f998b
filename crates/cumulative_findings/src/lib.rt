// Where question 6 says no of a record, and the cumulative there.
#![tactic(auto)]

ghost use Rattle.std.specs.Prelude.{◌≡◌, false, ◌+◌, ◌-◌, ◌≤◌, ◌<◌};
ghost use Rattle.rules.specs.Record.{figures_of};
ghost use Rattle.rules.specs.Triangle.{row_start, cumulative_of, cumulatives_pass};
ghost use Rattle.rules.specs.Results.{most_entries};
ghost use Rattle.rules.specs.Engine.{run_answer};
ghost use Rattle.triangle.specs.Columns.{Increments};
ghost use Rattle.cumulative_findings.specs.CumulativeFindings.{refused_column, cumulative_finding};

use finding::{CELL, Finding, NOWHERE};
use opening::last_year_of;
use reading::read;
use rules::MOST_CUMULATIVE;

// A column and the cumulative there.
#[derive(Clone, Copy)]
struct Cumulative {
    column: usize,
    amount: i64,
}

// The first cumulative of row i that is not from 0 to the most, or the column after the last; the increments of the row start at place `at`.
fn first_outside(increments: &[i64; 136], k: usize, i: usize, at: usize) -> Cumulative
    requires { Increments increments.now × ((k < 16) × ((i ≤ k) × (at ≡ row_start k i))) }
    ensures { (result.column ≡ refused_column k increments.now i)
        × (result.column < k + 1 - i → result.amount ≡ cumulative_of k increments.now i result.column) }
{
    let mut sum: i64 = 0;
    let count = k + 1 - i;
    for j in 0..count {
        sum += increments[at + j];
        if sum < 0 || sum > MOST_CUMULATIVE as i64 {
            return Cumulative {
                column: j,
                amount: sum,
            };
        }
    }
    Cumulative {
        column: count,
        amount: 0,
    }
}

// The finding of question 6, which says no, by the increments of the years 0 to k.
fn cumulative_found(increments: &[i64; 136], k: usize) -> Finding
    requires { Increments increments.now × ((k < 16) × (cumulatives_pass k increments.now ≡ false)) }
    ensures { (result ≡ cumulative_finding k increments.now) × ((result.row < 16) × (result.column < 16)) }
{
    let mut at: usize = 0;
    let n = k + 1;
    for i in 0..n {
        let first = first_outside(increments, k, i, at);
        if first.column < n - i {
            return Finding {
                place: CELL,
                row: i,
                column: first.column,
                one: first.amount,
                two: 0,
                three: 0,
            };
        }
        at += n - i;
    }
    // not reached: question 6 says no of a cell
    Finding {
        place: NOWHERE,
        row: 0,
        column: 0,
        one: 0,
        two: 0,
        three: 0,
    }
}

// The finding of question 6.
pub fn cumulative_finding(year: u64, packed: &[u8]) -> Finding
    requires { run_answer year packed.now most_entries ≡ 6 }
    ensures { (result ≡ cumulative_finding (figures_of packed.now).k (figures_of packed.now).increments)
        × ((result.row < 16) × (result.column < 16)) }
{
    let mut exposures = [0u64; 16];
    let mut increments = [0i64; 136];
    let mut indices = [0u64; 16];
    let mut reporting = [0u64; 16];
    let mut ulae = [0u64; 16];
    read(
        packed,
        &mut exposures,
        &mut increments,
        &mut indices,
        &mut reporting,
        &mut ulae,
    );
    cumulative_found(&increments, last_year_of(packed))
}
