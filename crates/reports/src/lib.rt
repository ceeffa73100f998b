// The report of any input, as a page of HTML or of text: years, a title, a line of inflation and a record.
#![tactic(auto)]

ghost use Rattle.std.specs.Prelude.{◌≡◌, ◌≤◌};
ghost use Rattle.rules.specs.Results.{most_entries};
ghost use Rattle.rules.specs.Engine.{run_answer};
ghost use Rattle.composing.specs.Text.{Put};
ghost use Rattle.outcomes.specs.Outcome.{filled_by};
ghost use Rattle.reports.specs.Report.{report_of, report_in};

use accepted_page::put_accepted_page;
use engine::doonamurk_run;
use opening::last_year_of;
use outcomes::read_accepted;
use rates_shown::shown_rates;
use record_figures::fill_record_figures;
use refused_page::put_refused_page;
use rules::MOST_ENTRIES;
use summary::fill_summary;
use summary_figures::SINGLES;
use titled_input::{first_of, parts_of};
use valuation::year_of;
use vectors::MOST_FIGURES;

// The page of an accepted run, from the record and the list that the engine filled.
fn put_accepted(
    out: &mut [u8],
    html: bool,
    title: &[u8],
    line: &[u8],
    year: u64,
    first: usize,
    packed: &[u8],
    list: &[i64; MOST_ENTRIES],
) -> usize
    requires { (first ≤ 65535) × ((year ≤ 65535) × ((run_answer year packed.now most_entries ≡ 0) × (list.now ≡ filled_by year packed.now))) }
    ensures { Put out.old out.new 0 result (report_of html title.now line.now year first packed.now) }
{
    let mut figures = [0i64; MOST_FIGURES];
    let opened = fill_record_figures(packed, list, &mut figures);
    let mut paid = [0u64; 16];
    let correction = read_accepted(year, packed, list, &mut paid);
    let k = last_year_of(packed);
    let mut singles = [0i64; SINGLES];
    fill_summary(
        &mut singles,
        year,
        k,
        &figures,
        correction,
        opened.weight,
        opened.tail,
    );
    let rates = shown_rates(packed, line);
    put_accepted_page(
        out, html, title, rates, year, first, k, packed, &figures, &singles,
    )
}

// The report of a record in a valuation year.
fn put_run(
    out: &mut [u8],
    html: bool,
    title: &[u8],
    line: &[u8],
    year: u64,
    first: usize,
    packed: &[u8],
) -> usize
    requires { (first ≤ 65535) × (year ≤ 65535) }
    ensures { Put out.old out.new 0 result (report_of html title.now line.now year first packed.now) }
{
    let mut list = [0i64; MOST_ENTRIES];
    let answer = doonamurk_run(year, packed, &mut list);
    if answer != 0 {
        return put_refused_page(out, html, title, line, year, first, packed, answer);
    }
    put_accepted(out, html, title, line, year, first, packed, &list)
}

// Puts the report of an input into the buffer, as far as it goes, and answers where it ends.
pub fn put_report(input: &[u8], out: &mut [u8], html: bool) -> usize
    ensures { Put out.old out.new 0 result (report_in html input.now) }
{
    let parts = parts_of(input);
    let from = parts.title;
    let end = parts.sized;
    let title = &input[from..end];
    let rates = parts.rates;
    let at = parts.packed;
    let line = &input[rates..at];
    let packed = &input[at..];
    put_run(
        out,
        html,
        title,
        line,
        year_of(input),
        first_of(input),
        packed,
    )
}
