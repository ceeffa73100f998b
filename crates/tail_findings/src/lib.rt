// Where questions 18 and 19 say no, and the figures there.
#![tactic(auto)]

ghost use Rattle.std.specs.Prelude.{◌≡◌, ℕ, ◌≤◌, ◌<◌, get_or, replicate};
ghost use Rattle.rules.specs.Questions.{first_no};
ghost use Rattle.rules.specs.Record.{most_index, figures_of};
ghost use Rattle.rules.specs.Reading.{opening_questions, field_questions};
ghost use Rattle.rules.specs.Separation.{billion};
ghost use Rattle.rules.specs.Tail.{tail_average};
ghost use Rattle.rules.specs.Results.{most_entries};
ghost use Rattle.rules.specs.Engine.{run_answer};
ghost use Rattle.tail.specs.Tailable.{years_carried};
ghost use Rattle.tail_findings.specs.TailFindings.{tail_finding, tail_average_finding};

use finding::{Finding, ORIGIN_YEAR, of_naturals};
use opening::last_year_of;
use reading::read;
use rules::MOST_TAIL_AVERAGE;
use tail::first_tail_average;

// The exposures and the indices of a record that has passed questions 1, 2, 4 and 5; answers the amount still to be paid for year 0.
pub fn read_tail(packed: &[u8], exposures: &mut [u64; 16], indices: &mut [u64; 16]) -> u64
    requires { (first_no (opening_questions packed.now) ≡ 0)
        × ((first_no (field_questions packed.now) ≡ 0) × ((exposures.old ≡ replicate 16 0) × (indices.old ≡ replicate 16 0))) }
    ensures { (result ≡ (figures_of packed.now).tail)
        × ((exposures.new ≡ (figures_of packed.now).exposures) × (indices.new ≡ (figures_of packed.now).indices)) }
{
    let mut increments = [0i64; 136];
    let mut reporting = [0u64; 16];
    let mut ulae = [0u64; 16];
    let opened = read(
        packed,
        exposures,
        &mut increments,
        indices,
        &mut reporting,
        &mut ulae,
    );
    opened.tail
}

// t_i, from t_0 and the indices.
fn tail_average(first: u64, indices: &[u64; 16], i: usize) -> u64
    requires { (i < 16) × ((first ≤ billion) × ((1 ≤ get_or indices.now 0 0) × (get_or indices.now i 0 ≤ most_index))) }
    ensures { result ≡ tail_average first indices.now i }
{
    first * indices[i] / indices[0]
}

// The first of the years 0 to k whose t_i is above the most, or k + 1.
fn first_over(k: usize, first: u64, indices: &[u64; 16]) -> usize
    requires { (k < 16) × ((first ≤ billion) × ((1 ≤ get_or indices.now 0 0) × ((i : ℕ) → get_or indices.now i 0 ≤ most_index))) }
    ensures { result ≡ years_carried k first indices.now }
{
    let n = k + 1;
    (0..n)
        .find(|i| tail_average(first, indices, *i) > MOST_TAIL_AVERAGE)
        .unwrap_or(n)
}

// Question 18: the amount still to be paid for year 0, its claims and their average t_0.
pub fn tail_finding(year: u64, packed: &[u8]) -> Finding
    requires { run_answer year packed.now most_entries ≡ 18 }
    ensures { (result ≡ tail_finding (figures_of packed.now)) × ((result.row < 16) × (result.column < 16)) }
{
    let mut exposures = [0u64; 16];
    let mut indices = [0u64; 16];
    let tail = read_tail(packed, &mut exposures, &mut indices);
    of_naturals(
        ORIGIN_YEAR,
        0,
        0,
        tail,
        exposures[0],
        first_tail_average(tail, &exposures),
    )
}

// Question 19: the first year whose average t_i is too large, that average, its index and the first index.
pub fn tail_average_finding(year: u64, packed: &[u8]) -> Finding
    requires { run_answer year packed.now most_entries ≡ 19 }
    ensures { (result ≡ tail_average_finding (figures_of packed.now)) × ((result.row < 16) × (result.column < 16)) }
{
    let mut exposures = [0u64; 16];
    let mut indices = [0u64; 16];
    let tail = read_tail(packed, &mut exposures, &mut indices);
    let first = first_tail_average(tail, &exposures);
    let i = first_over(last_year_of(packed), first, &indices);
    of_naturals(
        ORIGIN_YEAR,
        i,
        0,
        tail_average(first, &indices, i),
        indices[i],
        indices[0],
    )
}
