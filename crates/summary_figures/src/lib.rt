// Single figures of the report in one array: those that are given, stand in the list, or are limits.
#![tactic(auto)]

ghost use Rattle.std.specs.Prelude.{◌≡◌, ◌<◌};
ghost use Rattle.std.proofs.lemmas.List.Edits.{sets};
ghost use Rattle.listing.specs.Starts.{starts_of};
ghost use Rattle.page_figures.specs.Given.{Figured};
ghost use Rattle.summary_figures.specs.Summary.{provision_at, year_at, most_years_at, entries_of, given_of, limits, Told};

use growth::Correction;
use listing::Starts;
use rules::{
    BILLION, MILLION, MOST_AMOUNT, MOST_CUMULATIVE, MOST_FACTOR, MOST_INDEX, MOST_ULTIMATE,
};
use signed_sums::add;
use vectors::MOST_FIGURES;

// How many places the array has.
pub const SINGLES: usize = 48;

// Entries of the list.
pub fn fill_entries(
    out: &mut [i64; SINGLES],
    k: usize,
    figures: &[i64; MOST_FIGURES],
    starts: Starts,
)
    requires { (k < 16) × ((starts ≡ starts_of k) × Figured k figures.now) }
    ensures { out.new ≡ sets out.old provision_at (entries_of k figures.now) }
{
    let provision = starts.provision;
    let reserve = starts.reserve;
    let ratio = starts.ratio;
    out[10] = figures[provision];
    out[11] = figures[reserve];
    out[12] = figures[ratio];
    out[13] = add(figures[provision], figures[reserve]);
}

// What is given.
pub fn fill_given(
    out: &mut [i64; SINGLES],
    year: u64,
    k: usize,
    correction: Correction,
    weight: u64,
    tail: u64,
)
    requires { (k < 16) × Told year correction weight tail }
    ensures { out.new ≡ sets out.old year_at (given_of year k correction weight tail) }
{
    out[26] = year as i64;
    out[27] = weight as i64;
    out[28] = tail as i64;
    out[29] = (k + 1) as i64;
    out[30] = correction.plain as i64;
    out[31] = correction.reported as i64;
    out[32] = correction.paid as i64;
    out[33] = correction.divisor as i64;
}

// The limits.
pub fn fill_limits(out: &mut [i64; SINGLES])
    ensures { out.new ≡ sets out.old most_years_at limits }
{
    out[34] = 16;
    out[35] = MILLION as i64;
    out[36] = MOST_AMOUNT as i64;
    out[37] = MOST_CUMULATIVE as i64;
    out[38] = BILLION as i64;
    out[39] = BILLION as i64;
    out[40] = MOST_INDEX as i64;
    out[41] = MOST_ULTIMATE as i64;
    out[42] = MOST_FACTOR as i64;
}
