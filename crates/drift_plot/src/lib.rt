// The plots of a history, one for each development year, in a lent buffer.
#![tactic(auto)]

ghost use Rattle.std.specs.Prelude.{◌+◌, ◌≤◌, ◌<◌};
ghost use Rattle.rules.specs.History.{most_history, most_width};
ghost use Rattle.composing.specs.Text.{Put};
ghost use Rattle.axis.specs.Axis.{most_one, Sound};
ghost use Rattle.history_places.specs.Places.{Windowed, Small};
ghost use Rattle.drift_bars.specs.Bars.{AllDrawn};
ghost use Rattle.drift_plot.specs.Drift.{drift_by, drift_plot, drift_plots, drift};

use axis::{Scale, foot_line, scale_of, shown_step, unit_of, zero_line};
use drawing::put_ticks;
use drift_bars::put_drift_bars;
use drift_scale::{in_percent, largest_share, one_for};
use drift_words::{MOST_WORDS, put_drift_words};
use figure::{put_figure_end, put_figure_start};
use figure_caption::wide_of;
use parts::{put_beside_end, put_beside_start};
use rules::MOST_HISTORY_ENTRIES;

// The plot of development year j over n positions by its scale.
fn put_drift_by(
    out: &mut [u8],
    at: usize,
    words: &[u8],
    one: u64,
    scale: Scale,
    first: usize,
    list: &[i64; MOST_HISTORY_ENTRIES],
    width: usize,
    j: usize,
    n: usize,
) -> usize
    requires { ((1 ≤ one) × (one ≤ most_one)) × ((Sound scale × (n ≤ 63)) × AllDrawn scale first list.now width j n) }
    ensures { Put out.old out.new at result (drift_by words.now one scale first list.now width j n) }
{
    let slots = ((n + 1) / 2) as u64;
    let start = put_figure_start(
        out,
        at,
        words,
        slots,
        foot_line(scale),
        unit_of(one, scale.step),
    );
    let ticks = put_ticks(
        out,
        start,
        scale,
        wide_of(slots),
        shown_step(one, scale.step),
    );
    let bars = put_drift_bars(out, ticks, scale, first, list, width, j, n);
    put_figure_end(out, bars, slots, zero_line(scale))
}

// By its own scale.
fn put_drift_plot(
    out: &mut [u8],
    at: usize,
    first: usize,
    list: &[i64; MOST_HISTORY_ENTRIES],
    width: usize,
    j: usize,
    n: usize,
) -> usize
    requires { ((first ≤ 65535) × ((n ≤ 63) × Small list.now)) × ((n + width ≤ most_history + 1) × ((width ≤ most_width) × (j < width))) }
    ensures { Put out.old out.new at result (drift_plot first list.now width j n) }
{
    let high = largest_share(list, false, width, j, n);
    let low = largest_share(list, true, width, j, n);
    let one = one_for(high);
    let scale = scale_of(one, high, low);
    let mut words = [0u8; MOST_WORDS];
    let end = put_drift_words(&mut words, 0, j as u64, in_percent(high));
    put_drift_by(out, at, &words[..end], one, scale, first, list, width, j, n)
}

// Of every development year.
fn put_drift_plots(
    out: &mut [u8],
    at: usize,
    first: usize,
    years: usize,
    width: usize,
    list: &[i64; MOST_HISTORY_ENTRIES],
) -> usize
    requires { Windowed years width first × Small list.now }
    ensures { Put out.old out.new at result (drift_plots first years width list.now) }
{
    let n = years - width + 1;
    let mut end = at;
    for j in 0..width {
        end = put_drift_plot(out, end, first, list, width, j, n);
    }
    end
}

// In rows, on the page of HTML alone.
pub fn put_drift(
    out: &mut [u8],
    at: usize,
    html: bool,
    first: usize,
    years: usize,
    width: usize,
    list: &[i64; MOST_HISTORY_ENTRIES],
) -> usize
    requires { Windowed years width first × Small list.now }
    ensures { Put out.old out.new at result (drift html first years width list.now) }
{
    if html {
        let start = put_beside_start(out, at, html);
        let end = put_drift_plots(out, start, first, years, width, list);
        put_beside_end(out, end, html)
    } else {
        at
    }
}
