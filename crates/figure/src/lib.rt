// A plot's figure around what stands in it, in a lent buffer.
#![tactic(auto)]

ghost use Rattle.std.specs.Prelude.{◌≤◌};
ghost use Rattle.composing.specs.Text.{Put};
ghost use Rattle.figure.specs.Figure.{canvas, description, axis_label, figure_start, figure_end};

use axis_words::{put_unit_word, put_word_gap};
use composing::put_bytes;
use figure_caption::{least_of, put_caption, wide_of};
use lines::{line_length, put_line};
use shapes::put_numbered;

// The plot's sizes.
fn put_canvas(out: &mut [u8], at: usize, n: u64, foot: u64) -> usize
    requires { (n ≤ 32) × (foot ≤ 204) }
    ensures { Put out.old out.new at result (canvas n foot) }
{
    let a = put_numbered(out, at, b"<svg role=\"img\" viewBox=\"0 0 ", wide_of(n));
    let b = put_numbered(out, a, b" ", foot + 24);
    let c = put_numbered(out, b, b"\" style=\"min-width:", least_of(n));
    let d = put_numbered(out, c, b"px;max-width:", wide_of(n));
    put_bytes(out, d, b"px\">\n")
}

// Title and description.
fn put_description(out: &mut [u8], at: usize, words: &[u8]) -> usize
    ensures { Put out.old out.new at result (description words.now) }
{
    let a = put_bytes(out, at, b"<title>");
    let b = put_line(out, a, words, 0);
    let c = put_bytes(out, b, b"</title>\n<desc>");
    let d = put_line(out, c, words, 1);
    put_bytes(out, d, b"</desc>\n")
}

// What the axis is in.
fn put_axis_label(out: &mut [u8], at: usize, words: &[u8], unit: u64) -> usize
    ensures { Put out.old out.new at result (axis_label words.now unit) }
{
    let a = put_bytes(out, at, b"<text class=\"l\" x=\"0\" y=\"12\">");
    let b = put_unit_word(out, a, unit);
    let c = put_word_gap(out, b, unit, line_length(words, 2));
    let d = put_line(out, c, words, 2);
    put_bytes(out, d, b"</text>\n")
}

// All before the ticks.
pub fn put_figure_start(
    out: &mut [u8],
    at: usize,
    words: &[u8],
    n: u64,
    foot: u64,
    unit: u64,
) -> usize
    requires { (n ≤ 32) × (foot ≤ 204) }
    ensures { Put out.old out.new at result (figure_start words.now n foot unit) }
{
    let a = put_caption(out, at, words, n);
    let b = put_canvas(out, a, n, foot);
    let c = put_description(out, b, words);
    put_axis_label(out, c, words, unit)
}

// All after the slots.
pub fn put_figure_end(out: &mut [u8], at: usize, n: u64, line: u64) -> usize
    requires { n ≤ 32 }
    ensures { Put out.old out.new at result (figure_end n line) }
{
    let a = put_numbered(out, at, b"<path class=\"z\" d=\"M50 ", line);
    let b = put_numbered(out, a, b"H", wide_of(n));
    put_bytes(out, b, b"\"/>\n</svg></figure>\n")
}
