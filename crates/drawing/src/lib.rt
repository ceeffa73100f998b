// What stands in a plot by its scale, in a lent buffer: ticks and bars.
#![tactic(auto)]

ghost use Rattle.std.specs.Prelude.{false, ◌+◌, ◌*◌, ◌≤◌, nat_abs};
ghost use Rattle.composing.specs.Text.{Put};
ghost use Rattle.axis.specs.Axis.{most_plotted, side_of, Sound};
ghost use Rattle.drawing.specs.Drawing.{tick_number, tick_at, ticks, bar};

use axis::{Scale, foot_line, height_of, side_of, zero_line};
use composing::{put_byte, put_bytes};
use entries::size_of;
use numerals::put_spaced;
use shapes::{put_shape, put_tick_line, put_told};

// The number at tick t from below.
fn put_tick_number(out: &mut [u8], at: usize, down: u64, t: u64, q: u64) -> usize
    requires { ((down ≤ 5) × (t ≤ 10)) × (q ≤ 5 * most_plotted) }
    ensures { Put out.old out.new at result (tick_number down t q) }
{
    if t < down {
        let end = put_byte(out, at, b'-');
        put_spaced(out, end, 0, ((down - t) * q) as i64)
    } else {
        put_spaced(out, at, 0, ((t - down) * q) as i64)
    }
}

// Tick t from below.
fn put_tick(out: &mut [u8], at: usize, s: Scale, wide: u64, q: u64, t: u64) -> usize
    requires { (Sound s × (t ≤ s.up + s.down)) × (q ≤ 5 * most_plotted) }
    ensures { Put out.old out.new at result (tick_at s wide q t) }
{
    let y = foot_line(s) - s.tick * t;
    let a = put_tick_line(out, at, wide, y);
    let b = put_bytes(out, a, b"\">");
    let c = put_tick_number(out, b, s.down, t, q);
    put_bytes(out, c, b"</text>\n")
}

// The ticks, from below.
pub fn put_ticks(out: &mut [u8], at: usize, s: Scale, wide: u64, q: u64) -> usize
    requires { Sound s × (q ≤ 5 * most_plotted) }
    ensures { Put out.old out.new at result (ticks s wide q) }
{
    let n = s.up + s.down + 1;
    let mut end = at;
    for t in 0..n {
        end = put_tick(out, end, s, wide, q, t);
    }
    end
}

// The bar of a value.
pub fn put_bar(
    out: &mut [u8],
    at: usize,
    s: Scale,
    mark: u8,
    x: u64,
    w: u64,
    label: u64,
    d: usize,
    z: i64,
) -> usize
    requires { Sound s × ((nat_abs z ≤ most_plotted) × (side_of false z ≤ s.up * s.step)) }
    ensures { Put out.old out.new at result (bar s mark x w label d z) }
{
    let top = zero_line(s) - height_of(s, side_of(false, z));
    let height = height_of(s, size_of(z));
    let end = put_shape(out, at, mark, x, top, w, height);
    put_told(out, end, label, d, z)
}
