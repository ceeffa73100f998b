// The result list as comma-separated values in a lent buffer, with the valuation year, the plain ULAE ratio and what corrects it.
#![tactic(auto)]

ghost use Rattle.std.specs.Prelude.{◌≡◌, ◌<◌};
ghost use Rattle.composing.specs.Text.{Put};
ghost use Rattle.listing.specs.Starts.{starts_of};
ghost use Rattle.csv_text.specs.Csv.{ladder_lines, list_lines, corrected_line, valuation_lines, csv_of};

use composing::put_bytes;
use csv_completion::put_completion;
use csv_correction::put_correction;
use csv_expense::put_expense;
use csv_rows::{by_itself, by_year, future_cells, put_beside, put_section};
use csv_separation::put_separation;
use csv_tails::put_tails;
use growth::{Correction, corrects};
use listing::{Starts, starts_of};
use rules::MOST_ENTRIES;

// The development factors and the completed cumulatives.
fn put_ladder(
    out: &mut [u8],
    at: usize,
    list: &[i64; MOST_ENTRIES],
    k: usize,
    places: Starts,
) -> usize
    requires { (k < 16) × (places ≡ starts_of k) }
    ensures { Put out.old out.new at result (ladder_lines k list.now) }
{
    let a = put_section(
        out,
        at,
        list,
        b"development factor",
        b"millionths",
        by_year(0, k),
        places.factors,
    );
    put_section(
        out,
        a,
        list,
        b"completed cumulative",
        b"currency units",
        future_cells(k),
        places.completed,
    )
}

// The whole list, under a heading.
fn put_list(out: &mut [u8], list: &[i64; MOST_ENTRIES], k: usize) -> usize
    requires { k < 16 }
    ensures { Put out.old out.new 0 result (list_lines k list.now) }
{
    let places = starts_of(k);
    let a = put_bytes(
        out,
        0,
        b"section,origin year,development or payment year,value,unit\n",
    );
    let b = put_separation(out, a, list, k, places);
    let c = put_completion(out, b, list, k, places);
    let d = put_expense(out, c, list, k, places);
    let e = put_ladder(out, d, list, k, places);
    put_tails(out, e, list, k, places)
}

// The corrected ratio, which the list has in its place.
fn put_corrected(out: &mut [u8], at: usize, list: &[i64; MOST_ENTRIES], k: usize) -> usize
    requires { k < 16 }
    ensures { Put out.old out.new at result (corrected_line k list.now) }
{
    let places = starts_of(k);
    put_section(
        out,
        at,
        list,
        b"corrected ulae ratio",
        b"millionths",
        by_itself(),
        places.ratio,
    )
}

// The valuation year and the plain ratio, and what corrects it where the year's is corrected.
fn put_valuation(
    out: &mut [u8],
    at: usize,
    list: &[i64; MOST_ENTRIES],
    k: usize,
    year: u64,
    correction: Correction,
) -> usize
    requires { k < 16 }
    ensures { Put out.old out.new at result (valuation_lines year k list.now correction) }
{
    let a = put_beside(out, at, b"valuation year", b"year", year);
    let b = put_beside(out, a, b"plain ulae ratio", b"millionths", correction.plain);
    if corrects(year) {
        let c = put_correction(out, b, correction);
        return put_corrected(out, c, list, k);
    }
    b
}

// The whole, from the start of the buffer on.
pub fn put_csv(
    out: &mut [u8],
    list: &[i64; MOST_ENTRIES],
    k: usize,
    year: u64,
    correction: Correction,
) -> usize
    requires { k < 16 }
    ensures { Put out.old out.new 0 result (csv_of year k list.now correction) }
{
    let a = put_list(out, list, k);
    put_valuation(out, a, list, k, year, correction)
}
