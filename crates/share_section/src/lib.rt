// The section of the shares and the levels, in a lent buffer.
#![tactic(auto)]

ghost use Rattle.std.specs.Prelude.{◌<◌, ◌≤◌};
ghost use Rattle.composing.specs.Text.{Put};
ghost use Rattle.page_figures.specs.Given.{Figured};
ghost use Rattle.share_section.specs.ShareSection.{level_plot, levels, shares_section};

use level_tables::{put_future_table, put_level_table};
use listing::starts_of;
use parts::{put_beside_end, put_beside_start, put_only, put_section_end, put_section_start};
use plot::{Series, put_plot};
use share_tables::put_shares;
use vectors::MOST_FIGURES;

// The plot of the levels.
fn put_level_plot(
    out: &mut [u8],
    at: usize,
    html: bool,
    first: usize,
    k: usize,
    figures: &[i64; MOST_FIGURES],
) -> usize
    requires { (k < 16) × ((first ≤ 65535) × Figured k figures.now) }
    ensures { Put out.old out.new at result (level_plot html first k figures.now) }
{
    if html {
        let s = starts_of(k);
        let series = Series {
            start: s.levels,
            stride: 1,
            bars: 1,
            split: k + 1,
            slots: 2 * k + 1,
        };
        put_plot(
            out,
            at,
            b"Levels by payment year\nA bar for each payment year: dark for the levels found, light for the future levels. The figures are in the tables of levels.\na claim\nfound\nfuture\n",
            100,
            2,
            first,
            figures,
            series,
        )
    } else {
        at
    }
}

// The tables of the levels and the plot beside each other.
fn put_levels(
    out: &mut [u8],
    at: usize,
    html: bool,
    first: usize,
    k: usize,
    figures: &[i64; MOST_FIGURES],
) -> usize
    requires { (k < 16) × ((first ≤ 65535) × Figured k figures.now) }
    ensures { Put out.old out.new at result (levels html first k figures.now) }
{
    let found = put_beside_start(out, at, html);
    let future = put_level_table(out, found, html, first, k, figures);
    let plot = put_future_table(out, future, html, first, k, figures);
    let end = put_level_plot(out, plot, html, first, k, figures);
    put_beside_end(out, end, html)
}

// The section.
pub fn put_share_section(
    out: &mut [u8],
    at: usize,
    html: bool,
    first: usize,
    k: usize,
    figures: &[i64; MOST_FIGURES],
) -> usize
    requires { (k < 16) × ((first ≤ 65535) × Figured k figures.now) }
    ensures { Put out.old out.new at result (shares_section html first k figures.now) }
{
    let paragraph = put_section_start(out, at, html, b"Shares and levels");
    let shares = put_only(
        out,
        paragraph,
        html,
        b"<p><b>Share:</b> the part of an origin year's payments that falls into a development year; the shares sum to 1. <b>Level:</b> what a whole claim costs at the prices of one payment year. A future level is the latest one raised by its index. <b>Expected payments:</b> completed and tail payments by payment year, a tail payment in the year after the last development year; they add up to the total provision.</p>\n",
    );
    let levels = put_shares(out, shares, html, k, figures);
    let end = put_levels(out, levels, html, first, k, figures);
    put_section_end(out, end, html)
}
