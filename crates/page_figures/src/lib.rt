// The report's figures in one array: the result list, the record's fields, and what is worked out from them.
#![tactic(auto)]

ghost use Rattle.std.specs.Prelude.{◌≡◌, ◌<◌, pos, replicate};
ghost use Rattle.listing.specs.Starts.{starts_of};
ghost use Rattle.vectors.specs.Vectors.{most_figures};
ghost use Rattle.figure_places.specs.Places.{added_at};
ghost use Rattle.page_figures.specs.Given.{Counted, Given, Based, Worked};
ghost use Rattle.page_figures.specs.Shown.{triangle_figures, with_assumptions, given_figures, worked_triangles, worked_figures, combined_figures, shown_figures};

use allowance_figures::put_allowances;
use entries::{put_integers, put_naturals};
use figure_places::{Added, added_at};
use fitted_figures::put_fitted;
use future_figures::{put_expected, put_ladder_ultimates};
use layout::cells_of;
use listing::{Starts, entries_of, starts_of};
use row_figures::{put_row_sums, put_rows_running};
use rules::MOST_ENTRIES;
use vectors::{MOST_FIGURES, put_combined, put_running};

// The result list, the exposures and the increments.
fn fill_triangle(
    out: &mut [i64; MOST_FIGURES],
    list: &[i64; MOST_ENTRIES],
    exposures: &[u64; 16],
    increments: &[i64; 136],
    k: usize,
    at: Added,
)
    requires { (k < 16) × ((at ≡ added_at k) × ((out.old ≡ replicate most_figures (pos 0)) × Counted exposures.now)) }
    ensures { out.new ≡ triangle_figures k list.now exposures.now increments.now }
{
    put_integers(out, 0, list, at.exposures);
    put_naturals(out, at.exposures, exposures, k + 1);
    put_integers(out, at.increments, increments, cells_of(k));
}

// The other fields.
fn fill_assumptions(
    out: &mut [i64; MOST_FIGURES],
    indices: &[u64; 16],
    reporting: &[u64; 16],
    ulae: &[u64; 16],
    k: usize,
    at: Added,
)
    requires { (k < 16) × ((at ≡ added_at k) × (Counted indices.now × (Counted reporting.now × Counted ulae.now))) }
    ensures { out.new ≡ with_assumptions k indices.now reporting.now ulae.now out.old }
{
    let n = k + 1;
    put_naturals(out, at.indices, indices, n);
    put_naturals(out, at.reporting, reporting, n);
    put_naturals(out, at.ulae, ulae, n);
}

// The given cumulatives, what is paid, the running shares and the changes of the levels.
fn work_triangles(out: &mut [i64; MOST_FIGURES], k: usize, starts: Starts, at: Added)
    requires { (k < 16) × ((starts ≡ starts_of k) × ((at ≡ added_at k) × Based k out.old)) }
    ensures { out.new ≡ worked_triangles k out.old }
{
    put_rows_running(out, at.cumulatives, at.increments, k);
    put_row_sums(out, at.paid, at.increments, k);
    put_running(out, at.running, starts.shares, k + 1);
    put_combined(
        out,
        at.changes,
        true,
        starts.levels + 1,
        starts.levels,
        2 * k,
    );
}

// Expected payments, fitted values, allowances and the chain ladder's ultimates.
fn work_figures(out: &mut [i64; MOST_FIGURES], k: usize, starts: Starts, at: Added)
    requires { (k < 16) × ((starts ≡ starts_of k) × ((at ≡ added_at k) × Based k out.old)) }
    ensures { out.new ≡ worked_figures k out.old }
{
    put_expected(out, at.expected, starts.payments, starts.tails, k);
    put_fitted(out, at.fitted, starts.shares, starts.levels, k);
    put_allowances(out, at.allowances, 0, at.exposures, k);
    put_allowances(out, at.margins, 300, at.exposures, k);
    put_ladder_ultimates(out, at.ladder, at.paid, starts.completed, k);
}

// The chain ladder's provisions, ultimates, observed less fitted, differences of the two methods.
fn combine(out: &mut [i64; MOST_FIGURES], k: usize, starts: Starts, at: Added)
    requires { (k < 16) × ((starts ≡ starts_of k) × ((at ≡ added_at k) × Worked k out.old)) }
    ensures { out.new ≡ combined_figures k out.old }
{
    let n = k + 1;
    put_combined(out, at.remaining, true, at.ladder, at.paid, n);
    put_combined(out, at.ultimates, false, at.paid, starts.provisions, n);
    put_combined(out, at.gaps, true, 0, at.fitted, cells_of(k));
    put_combined(out, at.differences, true, at.ultimates, at.ladder, n);
    put_row_sums(out, at.sums, at.gaps, k);
}

// All figures of the years 0 to k.
pub fn fill_figures(
    out: &mut [i64; MOST_FIGURES],
    list: &[i64; MOST_ENTRIES],
    exposures: &[u64; 16],
    increments: &[i64; 136],
    indices: &[u64; 16],
    reporting: &[u64; 16],
    ulae: &[u64; 16],
    k: usize,
)
    requires { (k < 16)
        × ((out.old ≡ replicate most_figures (pos 0)) × Given k list.now exposures.now increments.now indices.now reporting.now ulae.now) }
    ensures { out.new
        ≡ shown_figures k list.now exposures.now increments.now indices.now reporting.now ulae.now }
{
    let at = added_at(k);
    let starts = starts_of(k);
    fill_triangle(out, list, exposures, increments, k, at);
    fill_assumptions(out, indices, reporting, ulae, k, at);
    work_triangles(out, k, starts, at);
    work_figures(out, k, starts, at);
    combine(out, k, starts, at);
}
