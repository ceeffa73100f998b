// The page of a history, in a lent buffer.
#![tactic(auto)]

ghost use Rattle.std.specs.Prelude.{◌≤◌};
ghost use Rattle.composing.specs.Text.{Put};
ghost use Rattle.history_places.specs.Places.{Windowed, Small};
ghost use Rattle.history_page.specs.Page.{history_page_start, history_years, history_width, history_opening, share_section, level_section, history_page};

use composing::{put_bytes, put_decimal};
use drift_plot::put_drift;
use history_refusals::put_refusal_section;
use history_tables::{put_level_tables, put_share_tables};
use page_frame::{put_page_end, put_start_with};
use parts::{put_either, put_only, put_section_end, put_section_start};
use rules::MOST_HISTORY_ENTRIES;

// The start.
fn put_history_start(out: &mut [u8], at: usize, html: bool, title: &[u8], first: usize) -> usize
    ensures { Put out.old out.new at result (history_page_start html title.now first) }
{
    if title.len() == 0 {
        put_start_with(
            out,
            at,
            html,
            b"Shares through a history",
            b"history of the origin years from ",
            first as u64,
        )
    } else {
        put_start_with(
            out,
            at,
            html,
            title,
            b"history of the origin years from ",
            first as u64,
        )
    }
}

// The origin years.
fn put_history_years(out: &mut [u8], at: usize, html: bool, first: usize, years: usize) -> usize
    requires { (1 ≤ years) × ((years ≤ 64) × (first ≤ 65535)) }
    ensures { Put out.old out.new at result (history_years html first years) }
{
    let a = put_either(
        out,
        at,
        html,
        b"<p>Doonamurk 1.0. History of the origin years <b>",
        b"Doonamurk 1.0, history of the origin years ",
    );
    let b = put_decimal(out, a, first as u64);
    let c = put_bytes(out, b, b" to ");
    put_decimal(out, c, (first + (years - 1)) as u64)
}

// The width of the windows.
fn put_history_width(out: &mut [u8], at: usize, html: bool, width: usize) -> usize
    ensures { Put out.old out.new at result (history_width html width) }
{
    let a = put_either(out, at, html, b"</b>, windows of ", b", windows of ");
    let b = put_decimal(out, a, width as u64);
    put_either(
        out,
        b,
        html,
        b" years. Shares are parts of 1, with nine decimals; levels are amounts a claim, with two.</p>\n",
        b" years\n",
    )
}

// The opening.
fn put_history_opening(
    out: &mut [u8],
    at: usize,
    html: bool,
    first: usize,
    years: usize,
    width: usize,
) -> usize
    requires { (1 ≤ years) × ((years ≤ 64) × (first ≤ 65535)) }
    ensures { Put out.old out.new at result (history_opening html first years width) }
{
    let end = put_history_years(out, at, html, first, years);
    put_history_width(out, end, html, width)
}

// The shares.
fn put_share_section(
    out: &mut [u8],
    at: usize,
    html: bool,
    first: usize,
    years: usize,
    width: usize,
    list: &[i64; MOST_HISTORY_ENTRIES],
) -> usize
    requires { Windowed years width first × Small list.now }
    ensures { Put out.old out.new at result (share_section html first years width list.now) }
{
    let a = put_section_start(out, at, html, b"Shares through the history");
    let b = put_only(
        out,
        a,
        html,
        b"<p><b>Position:</b> a window of origin years, taken as a record of its own: the cells inside it that were paid by its last year. The next position begins one origin year later, up to the latest payment year. A row has the shares of a position, the part of an origin year's payments that falls into each development year; down a column it is seen how a share drifts. A position that does not pass questions 7 to 10 has the number of the first that refuses it, and no shares or levels.</p>\n",
    );
    let c = put_share_tables(out, b, html, first, years, width, list);
    let d = put_drift(out, c, html, first, years, width, list);
    put_section_end(out, d, html)
}

// The levels.
fn put_level_section(
    out: &mut [u8],
    at: usize,
    html: bool,
    first: usize,
    years: usize,
    width: usize,
    list: &[i64; MOST_HISTORY_ENTRIES],
) -> usize
    requires { Windowed years width first }
    ensures { Put out.old out.new at result (level_section html first years width list.now) }
{
    let a = put_section_start(out, at, html, b"Levels through the history");
    let b = put_only(
        out,
        a,
        html,
        b"<p><b>Level:</b> what a whole claim costs at the prices of one payment year. The columns are the payment years of a position, counted from its first origin year, which is payment year 0.</p>\n",
    );
    let c = put_level_tables(out, b, html, first, years, width, list);
    put_section_end(out, c, html)
}

// The page of a history of so many years and the list of its windows, from the start of the buffer on; first is its first origin year, 0 for none.
pub fn put_history_page(
    out: &mut [u8],
    html: bool,
    title: &[u8],
    first: usize,
    years: usize,
    width: usize,
    list: &[i64; MOST_HISTORY_ENTRIES],
) -> usize
    requires { Windowed years width first × Small list.now }
    ensures { Put out.old out.new 0 result (history_page html title.now first years width list.now) }
{
    let a = put_history_start(out, 0, html, title, first);
    let b = put_history_opening(out, a, html, first, years, width);
    let c = put_share_section(out, b, html, first, years, width, list);
    let d = put_level_section(out, c, html, first, years, width, list);
    let e = put_refusal_section(out, d, html, list, width, years - width + 1);
    put_page_end(out, e, html)
}
