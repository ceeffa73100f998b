// The report of an accepted record, in a lent buffer.
#![tactic(auto)]

ghost use Rattle.std.specs.Prelude.{◌<◌, ◌≤◌};
ghost use Rattle.composing.specs.Text.{Put};
ghost use Rattle.page_figures.specs.Given.{Figured};
ghost use Rattle.accepted_page.specs.AcceptedPage.{fit_of, method_sections, other_sections, accepted_page};

use entries::size_of;
use expense_section::put_expense_section;
use fit_section::put_fit_section;
use growth::corrects;
use input_section::put_input_section;
use key_section::put_key_section;
use ladder_section::put_ladder_section;
use page_frame::{put_page_end, put_page_start};
use page_opening::put_opening;
use payment_section::put_payment_section;
use proof_section::put_proof_section;
use provision_section::put_provision_section;
use rates_section::put_rates_section;
use record_section::put_record_section;
use share_section::put_share_section;
use summary_figures::SINGLES;
use vectors::MOST_FIGURES;

// Averages and fit.
fn put_fit(
    out: &mut [u8],
    at: usize,
    html: bool,
    first: usize,
    k: usize,
    figures: &[i64; MOST_FIGURES],
    singles: &[i64; SINGLES],
) -> usize
    requires { (k < 16) × ((first ≤ 65535) × Figured k figures.now) }
    ensures { Put out.old out.new at result (fit_of html first k figures.now singles.now) }
{
    let lost = size_of(singles[25]);
    put_fit_section(
        out,
        at,
        html,
        first,
        k,
        figures,
        singles[9],
        singles[24],
        lost,
    )
}

// The sections up to the fit.
fn put_method_sections(
    out: &mut [u8],
    at: usize,
    html: bool,
    first: usize,
    k: usize,
    figures: &[i64; MOST_FIGURES],
    singles: &[i64; SINGLES],
) -> usize
    requires { (k < 16) × ((first ≤ 65535) × Figured k figures.now) }
    ensures { Put out.old out.new at result (method_sections html first k figures.now singles.now) }
{
    let a = put_key_section(out, at, html, first, k, figures, singles);
    let b = put_provision_section(out, a, html, first, k, figures);
    let c = put_share_section(out, b, html, first, k, figures);
    put_fit(out, c, html, first, k, figures, singles)
}

// The others.
fn put_other_sections(
    out: &mut [u8],
    at: usize,
    html: bool,
    rates: &[u8],
    year: u64,
    first: usize,
    k: usize,
    figures: &[i64; MOST_FIGURES],
    singles: &[i64; SINGLES],
) -> usize
    requires { (k < 16) × ((first ≤ 65535) × Figured k figures.now) }
    ensures { Put out.old out.new at result (other_sections html rates.now year first k figures.now singles.now) }
{
    let a = put_payment_section(out, at, html, first, k, figures);
    let b = put_expense_section(out, a, html, corrects(year), singles);
    let c = put_ladder_section(out, b, html, first, k, figures);
    let d = put_input_section(out, c, html, first, k, figures, singles);
    let e = put_rates_section(out, d, html, first, k, rates);
    put_proof_section(out, e, html, k, singles)
}

// The page.
pub fn put_accepted_page(
    out: &mut [u8],
    html: bool,
    title: &[u8],
    rates: &[u8],
    year: u64,
    first: usize,
    k: usize,
    packed: &[u8],
    figures: &[i64; MOST_FIGURES],
    singles: &[i64; SINGLES],
) -> usize
    requires { (k < 16) × ((first ≤ 65535) × Figured k figures.now) }
    ensures { Put out.old out.new 0 result
        (accepted_page html title.now rates.now year first k packed.now figures.now singles.now) }
{
    let a = put_page_start(out, 0, html, title, year);
    let b = put_opening(out, a, html, true, year, first, k, packed.len());
    let c = put_method_sections(out, b, html, first, k, figures, singles);
    let d = put_other_sections(out, c, html, rates, year, first, k, figures, singles);
    let e = put_record_section(out, d, html, packed);
    put_page_end(out, e, html)
}
