// The report of a refused record, in a lent buffer.
#![tactic(auto)]

ghost use Rattle.std.specs.Prelude.{◌≡◌, true, ◌≤◌, length};
ghost use Rattle.rules.specs.Questions.{first_no};
ghost use Rattle.rules.specs.Record.{last_year_of, figures_of};
ghost use Rattle.rules.specs.Reading.{opening_questions, field_questions};
ghost use Rattle.rules.specs.Triangle.{cumulatives_pass};
ghost use Rattle.rules.specs.Results.{most_entries};
ghost use Rattle.rules.specs.Engine.{run_answer};
ghost use Rattle.composing.specs.Text.{Put};
ghost use Rattle.rates_section.specs.RatesSection.{rates_section};
ghost use Rattle.rates_shown.specs.RatesShown.{shown_rates};
ghost use Rattle.refused_page.specs.RefusedPage.{years_known, inputs_known, refused_opening, refused_inputs, refused_rests, refusal, known_inputs, refused_page};

use findings::find;
use growth::Correction;
use input_section::put_input_section;
use opening::last_year_of;
use page_frame::{put_page_end, put_page_start};
use page_opening::put_opening;
use proof_section::put_refused_proof;
use rates_section::put_rates_section;
use rates_shown::shown_rates;
use record_figures::fill_record_figures;
use record_section::put_record_section;
use refused_section::put_refused_section;
use rest_years::put_rest_section;
use rules::MOST_ENTRIES;
use summary::fill_summary;
use summary_figures::SINGLES;
use vectors::MOST_FIGURES;

// Whether the opening names the years where question n refuses.
#[tactic(auto, unfolding(crate::specs::RefusedPage::years_known))]
fn years_known(n: u64) -> bool
    ensures { result ≡ years_known n }
{
    n != 1 && n != 2 && n != 4
}

// Whether the inputs can be read.
#[tactic(auto, unfolding(crate::specs::RefusedPage::inputs_known))]
fn inputs_known(n: u64) -> bool
    ensures { result ≡ inputs_known n }
{
    n != 3 && n != 5 && years_known(n)
}

// The opening.
fn put_refused_opening(
    out: &mut [u8],
    at: usize,
    html: bool,
    year: u64,
    first: usize,
    packed: &[u8],
    n: u64,
) -> usize
    requires { (first ≤ 65535) × (years_known n ≡ true → 1 ≤ length packed.now) }
    ensures { Put out.old out.new at result (refused_opening html year first packed.now n) }
{
    if years_known(n) {
        let k = last_year_of(packed);
        put_opening(out, at, html, true, year, first, k, packed.len())
    } else {
        put_opening(out, at, html, false, year, first, 0, packed.len())
    }
}

// The inputs as given, of a record that has passed questions 1, 2, 4 and 5.
fn put_refused_inputs(
    out: &mut [u8],
    at: usize,
    html: bool,
    year: u64,
    first: usize,
    packed: &[u8],
) -> usize
    requires { (first ≤ 65535) × ((year ≤ 65535) × ((first_no (opening_questions packed.now) ≡ 0) × (first_no (field_questions packed.now) ≡ 0))) }
    ensures { Put out.old out.new at result (refused_inputs html year first packed.now) }
{
    let list = [0i64; MOST_ENTRIES];
    let mut figures = [0i64; MOST_FIGURES];
    let opened = fill_record_figures(packed, &list, &mut figures);
    let k = last_year_of(packed);
    let mut singles = [0i64; SINGLES];
    let correction = Correction {
        plain: 0,
        reported: 0,
        paid: 0,
        divisor: 0,
    };
    fill_summary(
        &mut singles,
        year,
        k,
        &figures,
        correction,
        opened.weight,
        opened.tail,
    );
    put_input_section(out, at, html, first, k, &figures, &singles)
}

// The rates of a line where they made the indices, of such a record.
fn put_refused_rates(
    out: &mut [u8],
    at: usize,
    html: bool,
    first: usize,
    packed: &[u8],
    line: &[u8],
) -> usize
    requires { (first ≤ 65535) × ((first_no (opening_questions packed.now) ≡ 0) × (first_no (field_questions packed.now) ≡ 0)) }
    ensures { Put out.old out.new at result
        (rates_section html first (last_year_of packed.now) (shown_rates packed.now line.now)) }
{
    let k = last_year_of(packed);
    put_rates_section(out, at, html, first, k, shown_rates(packed, line))
}

// Both where the inputs can be read.
fn put_known_inputs(
    out: &mut [u8],
    at: usize,
    html: bool,
    line: &[u8],
    year: u64,
    first: usize,
    packed: &[u8],
    n: u64,
) -> usize
    requires { (first ≤ 65535)
        × ((year ≤ 65535) × (inputs_known n ≡ true → (first_no (opening_questions packed.now) ≡ 0) × (first_no (field_questions packed.now) ≡ 0))) }
    ensures { Put out.old out.new at result
        (known_inputs html (shown_rates packed.now line.now) year first packed.now n) }
{
    if inputs_known(n) {
        let rates = put_refused_inputs(out, at, html, year, first, packed);
        put_refused_rates(out, rates, html, first, packed, line)
    } else {
        at
    }
}

// Every year of which question 8 says no, where it is question 8.
fn put_refused_rests(out: &mut [u8], at: usize, html: bool, packed: &[u8], n: u64) -> usize
    requires { n ≡ 8
        → (first_no (opening_questions packed.now) ≡ 0)
        × ((first_no (field_questions packed.now) ≡ 0)
        × (cumulatives_pass (figures_of packed.now).k (figures_of packed.now).increments ≡ true)) }
    ensures { Put out.old out.new at result (refused_rests html packed.now n) }
{
    if n == 8 {
        put_rest_section(out, at, html, packed)
    } else {
        at
    }
}

// Where question n says no, and every year of which question 8 does, where it is question 8.
fn put_refusal(
    out: &mut [u8],
    at: usize,
    html: bool,
    year: u64,
    first: usize,
    packed: &[u8],
    n: u64,
) -> usize
    requires { (first ≤ 65535) × ((run_answer year packed.now most_entries ≡ n) × (1 ≤ n)) }
    ensures { Put out.old out.new at result (refusal html first packed.now n) }
{
    let found = find(year, packed, n);
    let a = put_refused_section(out, at, html, first, n, found);
    put_refused_rests(out, a, html, packed, n)
}

// The page of a record that question n refuses, with the rates of a line where they made the indices.
pub fn put_refused_page(
    out: &mut [u8],
    html: bool,
    title: &[u8],
    line: &[u8],
    year: u64,
    first: usize,
    packed: &[u8],
    n: u64,
) -> usize
    requires { (first ≤ 65535) × ((year ≤ 65535) × ((run_answer year packed.now most_entries ≡ n) × (1 ≤ n))) }
    ensures { Put out.old out.new 0 result
        (refused_page html title.now (shown_rates packed.now line.now) year first packed.now n) }
{
    let a = put_page_start(out, 0, html, title, year);
    let b = put_refused_opening(out, a, html, year, first, packed, n);
    let c = put_refusal(out, b, html, year, first, packed, n);
    let d = put_known_inputs(out, c, html, line, year, first, packed, n);
    let e = put_refused_proof(out, d, html);
    let f = put_record_section(out, e, html, packed);
    put_page_end(out, f, html)
}
