// Lines, bars and labels of a plot at given places, in a lent buffer.
#![tactic(auto)]

ghost use Rattle.std.specs.Prelude.{◌+◌, ◌≤◌};
ghost use Rattle.composing.specs.Text.{Put};
ghost use Rattle.shapes.specs.Shapes.{numbered, tick_line, shape, told, slot_label};

use composing::{put_byte, put_bytes, put_decimal};
use numerals::put_spaced;

// Words and a number behind them.
pub fn put_numbered(out: &mut [u8], at: usize, words: &[u8], n: u64) -> usize
    ensures { Put out.old out.new at result (numbered words.now n) }
{
    let end = put_bytes(out, at, words);
    put_decimal(out, end, n)
}

// The line of a tick, and where its number stands.
pub fn put_tick_line(out: &mut [u8], at: usize, wide: u64, y: u64) -> usize
    requires { y ≤ 204 }
    ensures { Put out.old out.new at result (tick_line wide y) }
{
    let a = put_numbered(out, at, b"<path d=\"M50 ", y);
    let b = put_numbered(out, a, b"H", wide);
    put_numbered(out, b, b"\"/><text x=\"46\" y=\"", y + 4)
}

// A bar with its left upper corner at x and y.
pub fn put_shape(out: &mut [u8], at: usize, mark: u8, x: u64, y: u64, w: u64, height: u64) -> usize
    ensures { Put out.old out.new at result (shape mark x y w height) }
{
    let a = put_bytes(out, at, b"<rect class=\"");
    let b = put_byte(out, a, mark);
    let c = put_numbered(out, b, b"\" x=\"", x);
    let d = put_numbered(out, c, b"\" y=\"", y);
    let e = put_numbered(out, d, b"\" width=\"", w);
    let f = put_numbered(out, e, b"\" height=\"", height);
    put_bytes(out, f, b"\">")
}

// What a bar is of.
pub fn put_told(out: &mut [u8], at: usize, label: u64, d: usize, z: i64) -> usize
    ensures { Put out.old out.new at result (told label d z) }
{
    let a = put_numbered(out, at, b"<title>", label);
    let b = put_bytes(out, a, b": ");
    let c = put_spaced(out, b, d, z);
    put_bytes(out, c, b"</title></rect>\n")
}

// The label of a slot.
pub fn put_slot_label(out: &mut [u8], at: usize, x: u64, y: u64, label: u64) -> usize
    ensures { Put out.old out.new at result (slot_label x y label) }
{
    let a = put_numbered(out, at, b"<text class=\"m\" x=\"", x);
    let b = put_numbered(out, a, b"\" y=\"", y);
    let c = put_numbered(out, b, b"\">", label);
    put_bytes(out, c, b"</text>\n")
}
