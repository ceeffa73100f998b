// Where question 14 says no, and the figures there.
#![tactic(auto)]

ghost use Rattle.std.specs.Prelude.{◌≡◌, false, ◌≤◌, ◌<◌};
ghost use Rattle.rules.specs.Record.{figures_of};
ghost use Rattle.rules.specs.Ladder.{completed_all, completed_pass};
ghost use Rattle.rules.specs.Results.{most_entries};
ghost use Rattle.rules.specs.Engine.{run_answer};
ghost use Rattle.ladder_findings.specs.LadderFindings.{first_row_over, cell_finding, completed_finding, Developing, Walked};

use finding::{CELL, Finding, of_naturals};
use ladder::development_factors;
use opening::last_year_of;
use outcomes::read_again;
use rules::{MILLION, MOST_CUMULATIVE};

// How many years past the diagonal the cumulatives of a row are within the most, and the last of these cumulatives, the paid one where there is none.
#[derive(Clone, Copy)]
struct Past {
    years: usize,
    last: u64,
}

// Row i past the diagonal, up to the first cumulative above the most.
fn walk_row(k: usize, paid: &[u64; 16], factors: &[u64; 16], i: usize) -> Past
    requires { Developing k paid.now factors.now × (i ≤ k) }
    ensures { Walked k paid.now factors.now i result }
{
    let mut last = paid[i];
    for (t, factor) in factors[k - i..k].iter().enumerate() {
        let next = last * *factor / MILLION;
        if next > MOST_CUMULATIVE {
            return Past { years: t, last };
        }
        last = next;
    }
    Past { years: i, last }
}

// The first of the years 0 to k whose row has a cumulative above the most, or k + 1.
fn first_row(k: usize, paid: &[u64; 16], factors: &[u64; 16]) -> usize
    requires { Developing k paid.now factors.now }
    ensures { result ≡ first_row_over k paid.now factors.now }
{
    let n = k + 1;
    (0..n)
        .find(|i| walk_row(k, paid, factors, *i).years < *i)
        .unwrap_or(n)
}

// The first cumulative above the most, from the paid cumulatives and the development factors: the one before it, the development factor and itself.
fn cell_found(k: usize, paid: &[u64; 16], factors: &[u64; 16]) -> Finding
    requires { Developing k paid.now factors.now × (completed_pass (completed_all k paid.now factors.now) ≡ false) }
    ensures { (result ≡ cell_finding k paid.now factors.now) × ((result.row < 16) × (result.column < 16)) }
{
    let i = first_row(k, paid, factors);
    let past = walk_row(k, paid, factors, i);
    let h = k - i + past.years;
    let factor = factors[h];
    of_naturals(
        CELL,
        i,
        h + 1,
        past.last,
        factor,
        past.last * factor / MILLION,
    )
}

// Question 14: the first cell whose completed cumulative is too large, the cumulative before it, the development factor and the completed cumulative.
pub fn completed_finding(year: u64, packed: &[u8]) -> Finding
    requires { run_answer year packed.now most_entries ≡ 14 }
    ensures { (result ≡ completed_finding (figures_of packed.now)) × ((result.row < 16) × (result.column < 16)) }
{
    let mut increments = [0i64; 136];
    let mut reporting = [0u64; 16];
    let mut ulae = [0u64; 16];
    let mut paid = [0u64; 16];
    let mut sums = [0u64; 16];
    let mut columns = [0i64; 16];
    let mut diagonals = [0i64; 16];
    read_again(
        packed,
        &mut increments,
        &mut reporting,
        &mut ulae,
        &mut paid,
        &mut sums,
        &mut columns,
        &mut diagonals,
    );
    let k = last_year_of(packed);
    let mut factors = [0u64; 16];
    development_factors(k, &sums, &paid, &mut factors);
    cell_found(k, &paid, &factors)
}
