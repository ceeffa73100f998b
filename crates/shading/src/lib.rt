// Styles of a triangle's cells, by row.
#![tactic(auto)]

ghost use Rattle.std.specs.Prelude.{◌≡◌, ◌+◌, ◌≤◌, ◌<◌, nat_abs};
ghost use Rattle.rules.specs.Lists.{up_to, padded};
ghost use Rattle.rules.specs.Record.{cells};
ghost use Rattle.signed_sums.specs.Small.{most_figure};
ghost use Rattle.vectors.specs.Vectors.{most_figures};
ghost use Rattle.page_figures.specs.Given.{Figured};
ghost use Rattle.shading.specs.Shading.{largest_size, stepped, size_mark, is_lost, average_mark, exceeds, gap_step, gap_mark, average_style, gap_style};

use entries::size_of;
use figure_places::added_at;
use layout::cells_of;
use table_cells::{
    MARK_ABOVE, MARK_BELOW, MARK_LOST, MARK_NEGATIVE, MARK_PLAIN, MARK_SHADE, styled,
};
use vectors::MOST_FIGURES;

// The largest size of n figures from place `start` on.
pub fn largest_size(figures: &[i64; MOST_FIGURES], start: usize, n: usize) -> u64
    requires { start + n ≤ most_figures }
    ensures { result ≡ largest_size start n figures.now }
{
    let mut most: u64 = 0;
    for x in &figures[start..start + n] {
        most = most.max(size_of(*x));
    }
    most
}

// A step's mark, the step added to a first one.
fn stepped_mark(first: u8, step: u64) -> u8
    requires { (first ≤ 12) × (step ≤ 5) }
    ensures { (result ≡ stepped (λ s. first + s) step) × (result ≤ 22) }
{
    if step == 0 {
        MARK_PLAIN
    } else {
        first + (step as u8)
    }
}

// The mark of an average by its size.
fn size_mark(most: u64, average: i64) -> u8
    requires { (nat_abs average ≤ most) × (most ≤ most_figure) }
    ensures { (result ≡ size_mark most average) × (result ≤ 22) }
{
    let step = 6 * size_of(average) / (most + 1);
    if average < 0 {
        MARK_NEGATIVE + (step.max(1) as u8)
    } else {
        stepped_mark(MARK_SHADE, step)
    }
}

// Whether a payment is not zero but its average is 0.00.
#[tactic(auto, unfolding(crate::specs::Shading::is_lost))]
pub fn is_lost(payment: i64, average: i64) -> bool
    ensures { result ≡ is_lost payment average }
{
    size_of(average) == 0 && 0 < size_of(payment)
}

// The mark of an average.
fn average_mark(most: u64, payment: i64, average: i64) -> u8
    requires { (nat_abs average ≤ most) × (most ≤ most_figure) }
    ensures { (result ≡ average_mark most payment average) × (result ≤ 22) }
{
    if is_lost(payment, average) {
        MARK_LOST
    } else {
        size_mark(most, average)
    }
}

// 1 where a size is more than t percent of the fitted value.
fn exceeds(t: u64, size: u64, fitted: u64) -> u64
    requires { (t ≤ 50) × ((size ≤ most_figure) × (fitted ≤ most_figure)) }
    ensures { (result ≡ exceeds t size fitted) × (result ≤ 1) }
{
    u64::from(t * fitted < 100 * size)
}

// The step of a gap.
fn gap_step(size: u64, fitted: u64) -> u64
    requires { (size ≤ most_figure) × (fitted ≤ most_figure) }
    ensures { (result ≡ gap_step size fitted) × (result ≤ 4) }
{
    exceeds(5, size, fitted)
        + exceeds(10, size, fitted)
        + exceeds(25, size, fitted)
        + exceeds(50, size, fitted)
}

// The mark of a gap.
fn gap_mark(fitted: u64, gap: i64) -> u8
    requires { (fitted ≤ most_figure) × (nat_abs gap ≤ most_figure) }
    ensures { (result ≡ gap_mark fitted gap) × (result ≤ 22) }
{
    let step = gap_step(size_of(gap), fitted);
    if gap < 0 {
        stepped_mark(MARK_BELOW, step)
    } else {
        stepped_mark(MARK_ABOVE, step)
    }
}

// The styles of the averages.
pub fn average_styles(k: usize, figures: &[i64; MOST_FIGURES]) -> [u8; 136]
    requires { (k < 16) × Figured k figures.now }
    ensures { result ≡ padded 136 0 (up_to (average_style k figures.now) (cells k)) }
{
    let n = cells_of(k);
    let at = added_at(k);
    let most = largest_size(figures, 0, n);
    let mut styles = [0u8; 136];
    for m in 0..n {
        styles[m] = styled(
            average_mark(most, figures[at.increments + m], figures[m]),
            2,
        );
    }
    styles
}

// The styles of the gaps.
pub fn gap_styles(k: usize, figures: &[i64; MOST_FIGURES]) -> [u8; 136]
    requires { (k < 16) × Figured k figures.now }
    ensures { result ≡ padded 136 0 (up_to (gap_style k figures.now) (cells k)) }
{
    let n = cells_of(k);
    let at = added_at(k);
    let mut styles = [0u8; 136];
    for m in 0..n {
        styles[m] = styled(
            gap_mark(size_of(figures[at.fitted + m]), figures[at.gaps + m]),
            2,
        );
    }
    styles
}
