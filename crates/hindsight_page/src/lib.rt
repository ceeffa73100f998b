// The page of a hindsight run, in a lent buffer.
#![tactic(auto)]

ghost use Rattle.std.specs.Prelude.{◌≤◌, ◌<◌};
ghost use Rattle.composing.specs.Text.{Put};
ghost use Rattle.hindsight_cells.specs.Cells.{Shown};
ghost use Rattle.hindsight_page.specs.Page.{Reported, hindsight_start, hindsight_years, settings_tried, hindsight_opening, settings_figures, settings_section, steps_section, gaps, gaps_section, figure_sections, hindsight_page};

use composing::{put_bytes, put_decimal};
use hindsight_best::put_best;
use hindsight_marks::{put_mark_section, some_fitted};
use hindsight_places::best_of;
use hindsight_plot::put_sums_plot;
use hindsight_tables::{put_gaps_rows, put_settings_rows, put_steps_rows};
use page_frame::{put_page_end, put_start_with};
use parts::{
    put_beside_end, put_beside_start, put_either, put_only, put_section_end, put_section_start,
};
use rules::{MOST_HINDSIGHT, MOST_SETTINGS};

// The start.
fn put_hindsight_start(out: &mut [u8], at: usize, html: bool, title: &[u8], first: usize) -> usize
    ensures { Put out.old out.new at result (hindsight_start html title.now first) }
{
    if title.len() == 0 {
        put_start_with(
            out,
            at,
            html,
            b"Hindsight run",
            b"hindsight run of the origin years from ",
            first as u64,
        )
    } else {
        put_start_with(
            out,
            at,
            html,
            title,
            b"hindsight run of the origin years from ",
            first as u64,
        )
    }
}

// The origin years.
fn put_hindsight_years(out: &mut [u8], at: usize, html: bool, first: usize, k: usize) -> usize
    requires { (first ≤ 65535) × (k ≤ 15) }
    ensures { Put out.old out.new at result (hindsight_years html first k) }
{
    let a = put_either(
        out,
        at,
        html,
        b"<p>Doonamurk 1.0. Hindsight run of the origin years <b>",
        b"Doonamurk 1.0, hindsight run of the origin years ",
    );
    let b = put_decimal(out, a, first as u64);
    let c = put_bytes(out, b, b" to ");
    put_decimal(out, c, (first + k) as u64)
}

// How many settings are tried.
fn put_settings_tried(out: &mut [u8], at: usize, html: bool, n: usize) -> usize
    ensures { Put out.old out.new at result (settings_tried html n) }
{
    let a = put_either(
        out,
        at,
        html,
        b"</b>, settings tried: ",
        b", settings tried: ",
    );
    let b = put_decimal(out, a, n as u64);
    put_either(
        out,
        b,
        html,
        b". An index of 1 leaves prices as they are.</p>\n",
        b"\n",
    )
}

fn put_hindsight_opening(
    out: &mut [u8],
    at: usize,
    html: bool,
    first: usize,
    k: usize,
    n: usize,
) -> usize
    requires { (first ≤ 65535) × (k ≤ 15) }
    ensures { Put out.old out.new at result (hindsight_opening html first k n) }
{
    let a = put_hindsight_years(out, at, html, first, k);
    put_settings_tried(out, a, html, n)
}

// The table of the settings and the plot of their sums.
fn put_settings_figures(
    out: &mut [u8],
    at: usize,
    html: bool,
    k: usize,
    n: usize,
    settings: &[u64; MOST_SETTINGS],
    list: &[i64; MOST_HINDSIGHT],
) -> usize
    requires { Shown list.now settings.now k n 0 }
    ensures { Put out.old out.new at result (settings_figures html k n settings.now list.now) }
{
    let a = put_beside_start(out, at, html);
    let b = put_settings_rows(out, a, html, list, settings, k, n);
    let c = put_sums_plot(out, b, html, list, settings, k, n);
    put_beside_end(out, c, html)
}

// The settings, with the best of them, a.
fn put_settings_section(
    out: &mut [u8],
    at: usize,
    html: bool,
    k: usize,
    n: usize,
    a: usize,
    settings: &[u64; MOST_SETTINGS],
    list: &[i64; MOST_HINDSIGHT],
) -> usize
    requires { (a < n) × (Shown list.now settings.now k n 0 × Shown list.now settings.now k n a) }
    ensures { Put out.old out.new at result (settings_section html k n a settings.now list.now) }
{
    let b = put_section_start(out, at, html, b"Settings");
    let c = put_only(
        out,
        b,
        html,
        b"<p><b>Setting:</b> a one-year index that is tried on the past. The latest payment years are dropped one after another, down to a triangle of two years. Each time what is kept is fitted, and the payments of the next payment year are forecast with the index, where the fit has both the origin and the development year. <b>Gap:</b> payment minus forecast. The best setting has the smallest sum of absolute gaps, the first on a tie.</p>\n",
    );
    let d = put_best(out, c, html, list, settings, k, a);
    let e = put_settings_figures(out, d, html, k, n, settings, list);
    put_section_end(out, e, html)
}

// The steps.
fn put_steps_section(
    out: &mut [u8],
    at: usize,
    html: bool,
    first: usize,
    k: usize,
    n: usize,
    settings: &[u64; MOST_SETTINGS],
    list: &[i64; MOST_HINDSIGHT],
) -> usize
    requires { Shown list.now settings.now k n 0 × (first ≤ 65535) }
    ensures { Put out.old out.new at result (steps_section html first k n settings.now list.now) }
{
    let a = put_section_start(out, at, html, b"Steps");
    let b = put_only(
        out,
        a,
        html,
        b"<p><b>Step:</b> one of these triangles and the payment year that it forecasts. A triangle that does not pass questions 7 to 10 is marked with the number of the first that says no, and is left out for all settings alike.</p>\n",
    );
    let c = put_steps_rows(out, b, html, first, list, settings, k, n);
    put_section_end(out, c, html)
}

// The gaps of the best setting, a.
fn put_gaps(
    out: &mut [u8],
    at: usize,
    html: bool,
    first: usize,
    k: usize,
    n: usize,
    a: usize,
    settings: &[u64; MOST_SETTINGS],
    list: &[i64; MOST_HINDSIGHT],
) -> usize
    requires { Shown list.now settings.now k n a × (first ≤ 65535) }
    ensures { Put out.old out.new at result (gaps html first k n a settings.now list.now) }
{
    let b = put_section_start(out, at, html, b"Gaps of the best setting");
    let c = put_only(
        out,
        b,
        html,
        b"<p>Above zero more was paid than forecast, below zero less. A payment year is a diagonal; that of a marked step is blank. Nothing is forecast in the first origin year and in development year 0.</p>\n",
    );
    let d = put_gaps_rows(out, c, html, first, list, settings, k, n, a);
    put_section_end(out, d, html)
}

// Where there are any.
fn put_gaps_section(
    out: &mut [u8],
    at: usize,
    html: bool,
    first: usize,
    k: usize,
    n: usize,
    a: usize,
    settings: &[u64; MOST_SETTINGS],
    list: &[i64; MOST_HINDSIGHT],
) -> usize
    requires { Shown list.now settings.now k n a × (first ≤ 65535) }
    ensures { Put out.old out.new at result (gaps_section html first k n a settings.now list.now) }
{
    if some_fitted(list, k) {
        put_gaps(out, at, html, first, k, n, a, settings, list)
    } else {
        at
    }
}

// The sections of the figures.
fn put_figure_sections(
    out: &mut [u8],
    at: usize,
    html: bool,
    first: usize,
    k: usize,
    n: usize,
    a: usize,
    settings: &[u64; MOST_SETTINGS],
    list: &[i64; MOST_HINDSIGHT],
) -> usize
    requires { (a < n) × ((Shown list.now settings.now k n 0 × Shown list.now settings.now k n a) × (first ≤ 65535)) }
    ensures { Put out.old out.new at result (figure_sections html first k n a settings.now list.now) }
{
    let b = put_settings_section(out, at, html, k, n, a, settings, list);
    let c = put_steps_section(out, b, html, first, k, n, settings, list);
    put_gaps_section(out, c, html, first, k, n, a, settings, list)
}

// The page of a hindsight run with n settings and its report, from the start of the buffer on; first is the record's first origin year, 0 for none.
pub fn put_hindsight_page(
    out: &mut [u8],
    html: bool,
    title: &[u8],
    first: usize,
    k: usize,
    n: usize,
    settings: &[u64; MOST_SETTINGS],
    list: &[i64; MOST_HINDSIGHT],
) -> usize
    requires { Reported first k n settings.now list.now }
    ensures { Put out.old out.new 0 result (hindsight_page html title.now first k n settings.now list.now) }
{
    let best = best_of(list, k, n);
    let a = put_hindsight_start(out, 0, html, title, first);
    let b = put_hindsight_opening(out, a, html, first, k, n);
    let c = put_figure_sections(out, b, html, first, k, n, best, settings, list);
    let d = put_mark_section(out, c, html, list, k);
    put_page_end(out, d, html)
}
