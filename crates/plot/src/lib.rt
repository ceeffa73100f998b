// A plot in a lent buffer.
#![tactic(auto)]

ghost use Rattle.std.specs.Prelude.{◌≡◌, cond, ◌<◌, ◌≤◌, ltb};
ghost use Rattle.rules.specs.Lists.{up_to, joined};
ghost use Rattle.composing.specs.Text.{Put};
ghost use Rattle.axis.specs.Axis.{most_one, Sound};
ghost use Rattle.figure_caption.specs.Caption.{dark, light};
ghost use Rattle.plot.specs.Plot.{slot_largest, largest_in, scale_for, slot_bars, slot, plot_by, plot, Plotted, Reached, AllPlotted, AllReached};

use axis::{Scale, foot_line, scale_of, shown_step, side_of, unit_of, zero_line};
use drawing::{put_bar, put_ticks};
use figure::{put_figure_end, put_figure_start};
use figure_caption::{DARK, LIGHT, wide_of};
use shapes::put_slot_label;

// Where the values of the first slot stand, how far those of the next are from them, the bars of a slot, how many slots of one bar are dark, and the slots.
#[derive(Clone, Copy)]
pub struct Series {
    pub start: usize,
    pub stride: usize,
    pub bars: usize,
    pub split: usize,
    pub slots: usize,
}

// How far the values of slot c go on one side of zero.
fn slot_largest(values: &[i64], low: bool, s: Series, c: usize) -> u64
    requires { Plotted values.now s c }
    ensures { result ≡ slot_largest low values.now s c }
{
    let p = s.start + c * s.stride;
    let first = side_of(low, values[p]);
    if s.bars == 2 {
        first.max(side_of(low, values[p + 1]))
    } else {
        first
    }
}

// How far all go.
fn largest_on(values: &[i64], low: bool, s: Series) -> u64
    requires { AllPlotted values.now s }
    ensures { result ≡ largest_in low values.now s s.slots }
{
    let n = s.slots;
    let mut largest: u64 = 0;
    for c in 0..n {
        largest = largest.max(slot_largest(values, low, s, c));
    }
    largest
}

// The mark of a slot of one bar.
fn mark_of(split: usize, c: usize) -> u8
    ensures { result ≡ cond (ltb c split) dark light }
{
    if c < split { DARK } else { LIGHT }
}

// The bars of slot c.
fn put_slot_bars(
    out: &mut [u8],
    at: usize,
    scale: Scale,
    d: usize,
    label: u64,
    values: &[i64],
    s: Series,
    c: usize,
) -> usize
    requires { ((c < 32) × Sound scale) × (Plotted values.now s c × Reached scale values.now s c) }
    ensures { Put out.old out.new at result (slot_bars scale d label values.now s c) }
{
    let p = s.start + c * s.stride;
    let left = 56 + 30 * (c as u64);
    if s.bars == 2 {
        let end = put_bar(out, at, scale, DARK, left + 2, 13, label, d, values[p]);
        put_bar(
            out,
            end,
            scale,
            LIGHT,
            left + 15,
            13,
            label,
            d,
            values[p + 1],
        )
    } else {
        let mark = mark_of(s.split, c);
        put_bar(out, at, scale, mark, left + 4, 22, label, d, values[p])
    }
}

// Slot c: its bars and its label.
fn put_slot(
    out: &mut [u8],
    at: usize,
    scale: Scale,
    d: usize,
    first: usize,
    values: &[i64],
    s: Series,
    c: usize,
) -> usize
    requires { (((c < 32) × (first ≤ 100000)) × Sound scale) × (Plotted values.now s c × Reached scale values.now s c) }
    ensures { Put out.old out.new at result (slot scale d first values.now s c) }
{
    let label = (first + c) as u64;
    let end = put_slot_bars(out, at, scale, d, label, values, s, c);
    let middle = 56 + 30 * (c as u64) + 15;
    put_slot_label(out, end, middle, foot_line(scale) + 16, label)
}

// The slots.
fn put_slots(
    out: &mut [u8],
    at: usize,
    scale: Scale,
    d: usize,
    first: usize,
    values: &[i64],
    s: Series,
) -> usize
    requires { (((s.slots ≤ 32) × (first ≤ 100000)) × Sound scale) × (AllPlotted values.now s × AllReached scale values.now s) }
    ensures { Put out.old out.new at result (joined (up_to (slot scale d first values.now s) s.slots)) }
{
    let n = s.slots;
    let mut end = at;
    for c in 0..n {
        end = put_slot(out, end, scale, d, first, values, s, c);
    }
    end
}

// The plot by its scale.
fn put_plot_by(
    out: &mut [u8],
    at: usize,
    words: &[u8],
    one: u64,
    d: usize,
    first: usize,
    values: &[i64],
    s: Series,
    scale: Scale,
) -> usize
    requires { ((1 ≤ one) × (one ≤ most_one)) × ((((s.slots ≤ 32) × (first ≤ 100000)) × Sound scale) × (AllPlotted values.now s × AllReached scale values.now s)) }
    ensures { Put out.old out.new at result (plot_by words.now one d first values.now s scale) }
{
    let n = s.slots as u64;
    let start = put_figure_start(
        out,
        at,
        words,
        n,
        foot_line(scale),
        unit_of(one, scale.step),
    );
    let ticks = put_ticks(out, start, scale, wide_of(n), shown_step(one, scale.step));
    let slots = put_slots(out, ticks, scale, d, first, values, s);
    put_figure_end(out, slots, n, zero_line(scale))
}

// The scale.
fn scale_for(one: u64, values: &[i64], s: Series) -> Scale
    requires { ((1 ≤ one) × (one ≤ most_one)) × AllPlotted values.now s }
    ensures { result ≡ scale_for one values.now s }
{
    let high = largest_on(values, false, s);
    let low = largest_on(values, true, s);
    scale_of(one, high, low)
}

// The plot.
pub fn put_plot(
    out: &mut [u8],
    at: usize,
    words: &[u8],
    one: u64,
    d: usize,
    first: usize,
    values: &[i64],
    series: Series,
) -> usize
    requires { ((1 ≤ one) × (one ≤ most_one)) × (((series.slots ≤ 32) × (first ≤ 100000)) × AllPlotted values.now series) }
    ensures { Put out.old out.new at result (plot words.now one d first values.now series) }
{
    let scale = scale_for(one, values, series);
    put_plot_by(out, at, words, one, d, first, values, series, scale)
}
