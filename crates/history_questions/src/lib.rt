// Questions 27 and 28 of a history.
#![tactic(auto)]

ghost use Rattle.std.specs.Prelude.{◌≡◌, true, pos};
ghost use Rattle.rules.specs.Lists.{every};
ghost use Rattle.rules.specs.Record.{in_range, exposure, increment};
ghost use Rattle.rules.specs.History.{history_count, width_passes, lengths_pass, history_passes, history_answer};

use entries::{size_of, within};
use history_cells::cells_of;
use rules::{ACCEPTED, LEAST_WIDTH, MILLION, MOST_AMOUNT, MOST_HISTORY, MOST_WIDTH};

// 27.
#[tactic(auto, using(std::proofs::lemmas::Bool::Decides::nat_tests), unfolding(rules::specs::History::width_passes))]
fn width_passes(years: u64, width: u64) -> bool
    ensures { result ≡ width_passes years width }
{
    years <= MOST_HISTORY as u64
        && LEAST_WIDTH as u64 <= width
        && width <= MOST_WIDTH as u64
        && width <= years
}

// How many entries are given of all positions.
fn entries_of(years: usize, width: usize) -> usize
    requires { width_passes years width ≡ true }
    ensures { result ≡ history_count years width }
{
    (years - width + 1) * (1 + 2 * width)
}

// Whether the lists have the lengths needed.
#[tactic(auto, using(crate::proofs::Passed::widths_known, std::proofs::lemmas::Bool::Decides::nat_tests), unfolding(rules::specs::History::lengths_pass))]
fn lengths_pass(years: usize, width: usize, exposures: &[u64], cells: &[i64], m: usize) -> bool
    requires { width_passes years width ≡ true }
    ensures { result ≡ lengths_pass years width exposures.now cells.now m }
{
    exposures.len() == years && cells.len() == cells_of(years) && m == entries_of(years, width)
}

// Whether every increment is in its range.
fn increments_pass(cells: &[i64]) -> bool
    ensures { result ≡ every (in_range increment) cells.now }
{
    cells.iter().all(|cell| size_of(*cell) <= MOST_AMOUNT)
}

// Whether every exposure is in its range.
fn exposures_pass(exposures: &[u64]) -> bool
    ensures { result ≡ every (λ x. in_range exposure (pos x)) exposures.now }
{
    within(exposures, exposures.len(), 1, MILLION)
}

// 28.
#[tactic(auto, unfolding(rules::specs::History::history_passes))]
fn history_passes(years: usize, width: usize, exposures: &[u64], cells: &[i64], m: usize) -> bool
    requires { width_passes years width ≡ true }
    ensures { result ≡ history_passes years width exposures.now cells.now m }
{
    lengths_pass(years, width, exposures, cells, m)
        && exposures_pass(exposures)
        && increments_pass(cells)
}

// The number of the first question that says no of a history and a lent result of m entries, or 0.
pub fn history_answer(years: u64, width: u64, exposures: &[u64], cells: &[i64], m: usize) -> u64
    ensures { result ≡ history_answer years width exposures.now cells.now m }
{
    if !width_passes(years, width) {
        return 27;
    }
    if !history_passes(years as usize, width as usize, exposures, cells, m) {
        return 28;
    }
    ACCEPTED
}
