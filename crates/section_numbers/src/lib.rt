// Single numbers of a section of the report's figures.
#![tactic(auto)]

ghost use Rattle.std.specs.Prelude.{◌≡◌, ℕ, ◌+◌, ◌*◌, ◌≤◌, ◌<◌, nat_abs, ◌+ℤ◌, ◌-ℤ◌, length, get_or};
ghost use Rattle.std.proofs.lemmas.List.Edits.{sets};
ghost use Rattle.signed_sums.specs.Small.{most_figure};
ghost use Rattle.vectors.specs.Vectors.{most_figures};
ghost use Rattle.section_numbers.specs.Numbers.{sum_of, sizes_of, lost_one, lost_of, sums_of, all_largest, Spans};
ghost use Rattle.shading.specs.Shading.{largest_size};

use entries::size_of;
use shading::{is_lost, largest_size};
use signed_sums::{add, subtract, sum_along};
use vectors::MOST_FIGURES;

// The sum of n figures from place `start` on.
pub fn section_sum(figures: &[i64; MOST_FIGURES], start: usize, n: usize) -> i64
    requires { Spans start n figures.now }
    ensures { (result ≡ sum_of start n figures.now) × (nat_abs result ≤ n * most_figure) }
{
    sum_along(figures, start, 1, n)
}

// The sum of one section and of another, of at most 64 figures each.
pub fn sections_together(figures: &[i64; MOST_FIGURES], a: usize, b: usize, n: usize) -> i64
    requires { (n ≤ 64) × (Spans a n figures.now × Spans b n figures.now) }
    ensures { result ≡ sum_of a n figures.now +ℤ sum_of b n figures.now }
{
    add(section_sum(figures, a, n), section_sum(figures, b, n))
}

// The sum of the first less that of the second.
pub fn sections_apart(figures: &[i64; MOST_FIGURES], a: usize, b: usize, n: usize) -> i64
    requires { (n ≤ 64) × (Spans a n figures.now × Spans b n figures.now) }
    ensures { result ≡ sum_of a n figures.now -ℤ sum_of b n figures.now }
{
    subtract(section_sum(figures, a, n), section_sum(figures, b, n))
}

// Their largest size.
pub fn section_largest(figures: &[i64; MOST_FIGURES], start: usize, n: usize) -> u64
    requires { Spans start n figures.now }
    ensures { (result ≡ largest_size start n figures.now) × (result ≤ most_figure) }
{
    largest_size(figures, start, n)
}

// The sum of their sizes.
pub fn section_sizes(figures: &[i64; MOST_FIGURES], start: usize, n: usize) -> u64
    requires { Spans start n figures.now }
    ensures { (result ≡ sizes_of start n figures.now) × (result ≤ n * most_figure) }
{
    let mut sum: u64 = 0;
    for x in &figures[start..start + n] {
        sum += size_of(*x);
    }
    sum
}

// Whether its average loses a payment, as a number.
fn lost_of(payment: i64, average: i64) -> u64
    ensures { (result ≡ lost_one payment average) × (result ≤ 1) }
{
    u64::from(is_lost(payment, average))
}

// How many of n payments are lost, their averages at the other place.
pub fn lost_payments(
    figures: &[i64; MOST_FIGURES],
    payments: usize,
    averages: usize,
    n: usize,
) -> u64
    requires { (payments + n ≤ most_figures) × (averages + n ≤ most_figures) }
    ensures { (result ≡ lost_of payments averages n figures.now) × (result ≤ most_figures) }
{
    let mut count: u64 = 0;
    for i in 0..n {
        count += lost_of(figures[payments + i], figures[averages + i]);
    }
    count
}

// The sums of sections one after another.
pub fn put_sums(
    out: &mut [i64],
    at: usize,
    figures: &[i64; MOST_FIGURES],
    starts: &[usize; 10],
    counts: &[usize; 10],
    n: usize,
)
    requires { (n ≤ 10) × ((at + n ≤ length out.old) × ((j : ℕ) → j < n → Spans (get_or starts.now j 0) (get_or counts.now j 0) figures.now)) }
    ensures { out.new ≡ sets out.old at (sums_of starts.now counts.now n figures.now) }
{
    for j in 0..n {
        out[at + j] = section_sum(figures, starts[j], counts[j]);
    }
}

// Their largest sizes.
pub fn put_largest(
    out: &mut [i64],
    at: usize,
    figures: &[i64; MOST_FIGURES],
    starts: &[usize; 10],
    counts: &[usize; 10],
    n: usize,
)
    requires { (n ≤ 10) × ((at + n ≤ length out.old) × ((j : ℕ) → j < n → Spans (get_or starts.now j 0) (get_or counts.now j 0) figures.now)) }
    ensures { out.new ≡ sets out.old at (all_largest starts.now counts.now n figures.now) }
{
    for j in 0..n {
        out[at + j] = section_largest(figures, starts[j], counts[j]) as i64;
    }
}
