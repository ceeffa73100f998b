// How wide a plot is, and the title above it with the legend, in a lent buffer.
#![tactic(auto)]

ghost use Rattle.std.specs.Prelude.{◌≡◌, ◌≤◌};
ghost use Rattle.composing.specs.Text.{Put};
ghost use Rattle.lines.specs.Lines.{line_of};
ghost use Rattle.figure_caption.specs.Caption.{wide_of, least_of, legend, caption};

use composing::{put_byte, put_bytes};
use lines::{line_length, put_line};
use shapes::put_numbered;

// The marks of dark and of light bars.
pub const DARK: u8 = 97;

pub const LIGHT: u8 = 98;

// How wide a plot of n slots is.
pub fn wide_of(n: u64) -> u64
    requires { n ≤ 32 }
    ensures { result ≡ wide_of n }
{
    let wide = 56 + 30 * n;
    if wide < 300 { 300 } else { wide }
}

// The least that it may be drawn at.
pub fn least_of(n: u64) -> u64
    requires { n ≤ 32 }
    ensures { result ≡ least_of n }
{
    2 * wide_of(n) / 3
}

// A mark and its word in the legend, line `line` of the words.
fn put_legend(out: &mut [u8], at: usize, mark: u8, words: &[u8], line: u64) -> usize
    ensures { Put out.old out.new at result (legend mark (line_of line words.now)) }
{
    if line_length(words, line) == 0 {
        at
    } else {
        let a = put_bytes(out, at, b" <b class=\"");
        let b = put_byte(out, a, mark);
        let c = put_bytes(out, b, b"\"></b> ");
        put_line(out, c, words, line)
    }
}

// The title above the plot, with the legend.
pub fn put_caption(out: &mut [u8], at: usize, words: &[u8], n: u64) -> usize
    requires { n ≤ 32 }
    ensures { Put out.old out.new at result (caption words.now n) }
{
    let a = put_numbered(out, at, b"<figure style=\"flex-basis:", least_of(n));
    let b = put_bytes(out, a, b"px\"><figcaption>");
    let c = put_line(out, b, words, 0);
    let d = put_legend(out, c, DARK, words, 3);
    let e = put_legend(out, d, LIGHT, words, 4);
    put_bytes(out, e, b"</figcaption>\n")
}
