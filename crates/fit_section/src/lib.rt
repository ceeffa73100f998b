// The section of the averages and how well they are fitted.
#![tactic(auto)]

ghost use Rattle.std.specs.Prelude.{◌≤◌, ◌<◌};
ghost use Rattle.composing.specs.Text.{Put};
ghost use Rattle.page_figures.specs.Given.{Figured};
ghost use Rattle.fit_section.specs.FitSection.{fit_section};

use fit_tables::{put_average_table, put_gap_table};
use fit_words::put_fit_words;
use parts::{put_only, put_section_end, put_section_start};
use vectors::MOST_FIGURES;

// The section.
pub fn put_fit_section(
    out: &mut [u8],
    at: usize,
    html: bool,
    first: usize,
    k: usize,
    figures: &[i64; MOST_FIGURES],
    averages: i64,
    gaps: i64,
    lost: u64,
) -> usize
    requires { (k < 16) × ((first ≤ 65535) × Figured k figures.now) }
    ensures { Put out.old out.new at result (fit_section html first k figures.now averages gaps lost) }
{
    let paragraph = put_section_start(out, at, html, b"Averages and fit");
    let table = put_only(
        out,
        paragraph,
        html,
        b"<p><b>Average:</b> what was paid in a development year for each claim of the origin year, to the nearest hundredth, halves to the even one; darker where it is larger. <b>Fitted:</b> share times level. Blue is above the fitted value, orange below it; the four shades begin at more than 5, 10, 25 and 50 percent of the fitted value. Columns and diagonals fit by the method, so look for rows and corners of one colour: there the separation does not describe the payments well. Averages below zero are shaded orange; a payment that is not zero but whose average is 0.00 has a frame.</p>\n",
    );
    let words = put_average_table(out, table, html, first, k, figures);
    let gap_table = put_fit_words(out, words, html, averages, gaps, lost);
    let end = put_gap_table(out, gap_table, html, first, k, figures);
    put_section_end(out, end, html)
}
