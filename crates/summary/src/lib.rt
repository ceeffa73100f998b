// All single figures of the report in one array.
#![tactic(auto)]

ghost use Rattle.std.specs.Prelude.{◌≡◌, ◌<◌, ◌≤◌, pos, replicate};
ghost use Rattle.std.proofs.lemmas.List.Edits.{sets};
ghost use Rattle.listing.specs.Starts.{starts_of};
ghost use Rattle.figure_places.specs.Places.{added_at};
ghost use Rattle.page_figures.specs.Given.{Figured};
ghost use Rattle.summary_figures.specs.Summary.{singles, paid_at, difference_at, largest_exposure_at, gaps_at, totals_of, tail_allowance, compared_of, largest_cumulative, largest_sizes, fit_of, summary_of, most_single, Told};

use figure_places::{Added, added_at};
use growth::Correction;
use layout::cells_of;
use listing::{Starts, starts_of};
use section_numbers::{
    lost_payments, put_largest, put_sums, section_largest, section_sizes, section_sum,
    sections_apart, sections_together,
};
use signed_sums::add;
use summary_figures::{SINGLES, fill_entries, fill_given, fill_limits};
use vectors::MOST_FIGURES;

// The sums.
fn fill_totals(
    out: &mut [i64; SINGLES],
    k: usize,
    figures: &[i64; MOST_FIGURES],
    starts: Starts,
    at: Added,
)
    requires { (k < 16) × ((starts ≡ starts_of k) × ((at ≡ added_at k) × Figured k figures.now)) }
    ensures { out.new ≡ sets out.old paid_at (totals_of k figures.now) }
{
    let n = k + 1;
    let sections = [
        at.paid,
        at.ultimates,
        at.ladder,
        at.remaining,
        starts.tails,
        at.allowances,
        at.margins,
        at.ulae,
        at.exposures,
        0,
    ];
    let counts = [n, n, n, n, n, n, n, n, n, cells_of(k)];
    put_sums(out, 0, figures, &sections, &counts, 10);
}

// The allowance of the tail payments.
fn tail_allowance(k: usize, figures: &[i64; MOST_FIGURES], at: Added) -> i64
    requires { (k < 16) × ((at ≡ added_at k) × Figured k figures.now) }
    ensures { result ≡ tail_allowance k figures.now }
{
    let n = k + 1;
    add(section_sum(figures, at.exposures, n), (100 * n) as i64)
}

// What is worked out of sums.
fn fill_compared(out: &mut [i64; SINGLES], k: usize, figures: &[i64; MOST_FIGURES], at: Added)
    requires { (k < 16) × ((at ≡ added_at k) × Figured k figures.now) }
    ensures { out.new ≡ sets out.old difference_at (compared_of k figures.now) }
{
    let n = k + 1;
    out[14] = sections_apart(figures, at.ultimates, at.ladder, n);
    out[15] = sections_together(figures, at.allowances, at.margins, n);
    out[16] = tail_allowance(k, figures, at);
}

// The largest cumulative.
fn largest_cumulative(k: usize, figures: &[i64; MOST_FIGURES], starts: Starts, at: Added) -> u64
    requires { (k < 16) × ((starts ≡ starts_of k) × ((at ≡ added_at k) × Figured k figures.now)) }
    ensures { (result ≡ largest_cumulative k figures.now) × (result ≤ most_single) }
{
    let m = cells_of(k);
    let given = section_largest(figures, at.cumulatives, m);
    let completed = section_largest(figures, starts.completed, m - (k + 1));
    given.max(completed)
}

// The largest sizes.
fn fill_largest(
    out: &mut [i64; SINGLES],
    k: usize,
    figures: &[i64; MOST_FIGURES],
    starts: Starts,
    at: Added,
)
    requires { (k < 16) × ((starts ≡ starts_of k) × ((at ≡ added_at k) × Figured k figures.now)) }
    ensures { out.new ≡ sets out.old largest_exposure_at (largest_sizes k figures.now) }
{
    let n = k + 1;
    let sections = [
        at.exposures,
        at.increments,
        starts.levels,
        at.indices,
        at.ultimates,
        starts.factors,
        0,
        0,
        0,
        0,
    ];
    let counts = [n, cells_of(k), n, n, n, k, 0, 0, 0, 0];
    put_largest(out, 17, figures, &sections, &counts, 6);
    out[23] = largest_cumulative(k, figures, starts, at) as i64;
}

// The fit.
fn fill_fit(out: &mut [i64; SINGLES], k: usize, figures: &[i64; MOST_FIGURES], at: Added)
    requires { (k < 16) × ((at ≡ added_at k) × Figured k figures.now) }
    ensures { out.new ≡ sets out.old gaps_at (fit_of k figures.now) }
{
    let m = cells_of(k);
    out[24] = section_sizes(figures, at.gaps, m) as i64;
    out[25] = lost_payments(figures, at.increments, 0, m) as i64;
}

// All of them.
pub fn fill_summary(
    out: &mut [i64; SINGLES],
    year: u64,
    k: usize,
    figures: &[i64; MOST_FIGURES],
    correction: Correction,
    weight: u64,
    tail: u64,
)
    requires { (k < 16) × (Figured k figures.now × (Told year correction weight tail × (out.old ≡ replicate singles (pos 0)))) }
    ensures { out.new ≡ summary_of year k figures.now correction weight tail }
{
    let starts = starts_of(k);
    let at = added_at(k);
    fill_totals(out, k, figures, starts, at);
    fill_entries(out, k, figures, starts);
    fill_compared(out, k, figures, at);
    fill_largest(out, k, figures, starts, at);
    fill_fit(out, k, figures, at);
    fill_given(out, year, k, correction, weight, tail);
    fill_limits(out);
}
