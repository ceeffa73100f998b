// Taylor's separation: shares and levels from a square of averages, or from its totals, and k alone, under questions 7 to 10.
#![tactic(auto)]

ghost use Rattle.std.specs.Prelude.{◌≡◌, List, ◌+◌, ◌-◌, ◌*◌, ◌/◌, ◌≤◌, ◌<◌, ℤ, length, get_or};
ghost use Rattle.rules.specs.Questions.{after_call};
ghost use Rattle.rules.specs.Separation.{billion, no_factors, factors_of, separate_answer, separated};
ghost use Rattle.totals.specs.CellSizes.{Cells};
ghost use Rattle.totals.specs.Squares.{cut_of};
ghost use Rattle.totals.specs.Summed.{Summed};
ghost use Rattle.total_questions.specs.TotalQuestions.{Ready, totals_answer};
ghost use Rattle.separation.specs.Walk.{FactorsFound, with_year};

use factors::{factors_answer, level_of, no_factors, running_below};
use rules::{ACCEPTED, BILLION, Factors};
use total_questions::totals_answer;
use totals::fill_totals;

// The number that the separation answers, and the factors: zeros where it is not 0.
#[derive(Clone, Copy)]
pub struct Separation {
    pub answer: u64,
    pub factors: Factors,
}

// The share of a year: what its running share is above that of the year below.
fn share_of(a: u64, next: u64) -> u64
    requires { next ≤ a }
    ensures { result ≡ a - next }
{
    a - next
}

// The factors of year 0.
fn first_year(share: u64, level: u64, k: usize) -> Factors
    ensures { result ≡ with_year (no_factors k) 0 share level }
{
    let mut f = no_factors(k);
    f.shares[0] = share;
    f.levels[0] = level;
    f
}

// The factors of the years below h, and beside them the share and the level of h, of which a is the running share.
#[cycle(level_step_share_step)]
fn share_step(
    columns: &[u64; 16],
    diagonals: &[u64; 16],
    corners: &[u64; 16],
    a: u64,
    level: u64,
    k: usize,
    h: usize,
) -> Factors
    requires { Ready columns.now diagonals.now corners.now h
        × ((a ≤ billion) × ((h < 16) × (level ≡ get_or diagonals.now h 0 * billion / a))) }
    ensures { FactorsFound k columns.now diagonals.now corners.now a h result }
{
    if h == 0 {
        return first_year(a, level, k);
    }
    let next = running_below(columns, corners, h, a);
    let mut f = level_step(columns, diagonals, corners, next, k, h - 1);
    f.shares[h] = share_of(a, next);
    f.levels[h] = level;
    f
}

// The factors of the years 0 to h: the level of h, of which a is the running share, goes with its share.
#[cycle(level_step_share_step)]
fn level_step(
    columns: &[u64; 16],
    diagonals: &[u64; 16],
    corners: &[u64; 16],
    a: u64,
    k: usize,
    h: usize,
) -> Factors
    requires { Ready columns.now diagonals.now corners.now h × ((a ≤ billion) × (h < 16)) }
    ensures { FactorsFound k columns.now diagonals.now corners.now a h result }
{
    let level = level_of(diagonals, h, a);
    share_step(columns, diagonals, corners, a, level, k, h)
}

fn refused(answer: u64, k: usize) -> Separation
    ensures { (result.answer ≡ answer) × (result.factors ≡ no_factors k) }
{
    let factors = no_factors(k);
    Separation { answer, factors }
}

// The factors of a square of averages from its totals, where questions 7 and 8 say yes, before 9 and 10 are put to them; none where 7 or 8 says no.
pub fn walk(columns: &[i64; 16], diagonals: &[i64; 16], k: usize) -> Factors
    requires { (k < 16) × ((s : List (List ℤ)) × Summed s k columns.now diagonals.now) }
    ensures { (s : List (List ℤ)) → Summed s k columns.now diagonals.now
        → result ≡ after_call (totals_answer s k) (factors_of s k) (no_factors k) }
{
    let mut v = [0u64; 16];
    let mut d = [0u64; 16];
    let mut corners = [0u64; 16];
    if totals_answer(columns, diagonals, k, &mut v, &mut d, &mut corners) != ACCEPTED {
        return no_factors(k);
    }
    level_step(&v, &d, &corners, BILLION, k, k)
}

// Shares and levels of the years 0 to k from the totals of a square of averages, or the number of the first of questions 7, 8, 9 and 10 that says no.
pub fn separate_totals(columns: &[i64; 16], diagonals: &[i64; 16], k: usize) -> Separation
    requires { (k < 16) × ((s : List (List ℤ)) × Summed s k columns.now diagonals.now) }
    ensures { (s : List (List ℤ)) → Summed s k columns.now diagonals.now
        → (result.answer ≡ separate_answer s k) × (result.factors ≡ separated s k) }
{
    let mut v = [0u64; 16];
    let mut d = [0u64; 16];
    let mut corners = [0u64; 16];
    let first = totals_answer(columns, diagonals, k, &mut v, &mut d, &mut corners);
    if first != ACCEPTED {
        return refused(first, k);
    }
    let level = level_of(&d, k, BILLION);
    let f = share_step(&v, &d, &corners, BILLION, level, k, k);
    let answer = factors_answer(&f.shares, &f.levels, k);
    if answer != ACCEPTED {
        return refused(answer, k);
    }
    Separation { answer, factors: f }
}

// The same of a square of averages cut out of rows, those from `first` on: its totals are formed first.
pub fn separate(rows: &[[i64; 16]], first: usize, k: usize) -> Separation
    requires { (Cells rows.now × (first + k < length rows.now)) × (k < 16) }
    ensures { (result.answer ≡ separate_answer (cut_of rows.now first k) k) × (result.factors ≡ separated (cut_of rows.now first k) k) }
{
    let mut columns = [0i64; 16];
    let mut diagonals = [0i64; 16];
    fill_totals(rows, first, k, &mut columns, &mut diagonals);
    separate_totals(&columns, &diagonals, k)
}
