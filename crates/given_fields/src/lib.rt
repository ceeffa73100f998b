// Questions 1, 2 and 4 of the fields that a writer is given.
#![tactic(auto)]

ghost use Rattle.std.specs.Prelude.{◌≡◌, ◌&&◌, ◌+◌, ◌<◌, eqb, leb};
ghost use Rattle.rules.specs.Record.{increment, in_range, byte_count, cells, million, most_amount, most_index};
ghost use Rattle.rules.specs.Lists.{every, between};

use entries::{size_of, within};
use layout::{bytes_of, cells_of};
use rules::{MILLION, MOST_AMOUNT, MOST_INDEX};

// Question 1.
pub fn given_last_year(k: u64) -> bool
    ensures { result ≡ leb 1 k && leb k 15 }
{
    1 <= k && k <= 15
}

// Question 2, from the lengths of the lists and of the buffer.
pub fn given_lengths(
    k: usize,
    m: usize,
    exposures: usize,
    increments: usize,
    indices: usize,
    reporting: usize,
    ulae: usize,
) -> bool
    requires { k < 16 }
    ensures { result ≡ eqb m (byte_count k)
        && (eqb exposures (k + 1) && (eqb increments (cells k) && (eqb indices (k + 1) && (eqb reporting (k + 1) && eqb ulae (k + 1))))) }
{
    let n = k + 1;
    m == bytes_of(k)
        && exposures == n
        && increments == cells_of(k)
        && indices == n
        && reporting == n
        && ulae == n
}

// Whether an increment is in its range.
#[tactic(auto, unfolding(rules::specs::Record::in_range))]
fn in_range(p: i64) -> bool
    ensures { result ≡ in_range increment p }
{
    size_of(p) <= MOST_AMOUNT
}

// Whether every increment is in its range.
fn all_in_range(ps: &[i64]) -> bool
    ensures { result ≡ every (in_range increment) ps.now }
{
    ps.iter().all(|p| in_range(*p))
}

// Question 4.
pub fn given_ranges(
    exposures: &[u64],
    increments: &[i64],
    indices: &[u64],
    reporting: &[u64],
    weight: u64,
    ulae: &[u64],
    tail: u64,
) -> bool
    ensures { result ≡ every (between 1 million) exposures.now
        && (every (in_range increment) increments.now
        && (every (between 1 most_index) indices.now
        && (every (between 0 million) reporting.now
        && (between 0 million weight && (every (between 0 most_amount) ulae.now && between 0 most_amount tail))))) }
{
    within(exposures, exposures.len(), 1, MILLION)
        && all_in_range(increments)
        && within(indices, indices.len(), 1, MOST_INDEX)
        && within(reporting, reporting.len(), 0, MILLION)
        && weight <= MILLION
        && within(ulae, ulae.len(), 0, MOST_AMOUNT)
        && tail <= MOST_AMOUNT
}
