// The axis of a plot.
#![tactic(auto)]

ghost use Rattle.std.specs.Prelude.{◌≡◌, ◌*◌, ◌≤◌};
ghost use Rattle.axis.specs.Axis.{most_plotted, most_one, side_of, in_decade, step_for, steps_to, scale_of, height_of, unit_of, shown_step, zero_line, foot_line, Sound};

use entries::size_of;

// A step in the values' units, the steps up and down, and the height of a tick.
#[derive(Clone, Copy)]
pub struct Scale {
    pub step: u64,
    pub up: u64,
    pub down: u64,
    pub tick: u64,
}

// How far a value is above zero, or below it.
pub fn side_of(low: bool, z: i64) -> u64
    ensures { result ≡ side_of low z }
{
    if z < 0 {
        if low { size_of(z) } else { 0 }
    } else {
        if low { 0 } else { size_of(z) }
    }
}

// The first of s × 1, 2 and 5 whose fivefold is at least the largest size.
fn in_decade(s: u64, largest: u64) -> u64
    requires { s ≤ most_plotted }
    ensures { result ≡ in_decade s largest }
{
    if largest <= 5 * s {
        s
    } else if largest <= 10 * s {
        2 * s
    } else {
        5 * s
    }
}

// A step of the axis.
fn step_for(one: u64, largest: u64) -> u64
    requires { (one ≤ most_one) × (largest ≤ most_plotted) }
    ensures { result ≡ step_for one largest }
{
    let mut s = one;
    for _ in 0..17usize {
        if largest <= 25 * s {
            return in_decade(s, largest);
        }
        s = 10 * s;
    }
    s
}

// How many steps it takes to reach a size.
fn steps_to(size: u64, step: u64) -> u64
    requires { (size ≤ most_plotted) × ((1 ≤ step) × (step ≤ 5 * most_plotted)) }
    ensures { result ≡ steps_to size step }
{
    (size + (step - 1)) / step
}

// The scale by the largest value and the largest size of a value below 0.
pub fn scale_of(one: u64, high: u64, low: u64) -> Scale
    requires { ((1 ≤ one) × (one ≤ most_one)) × ((high ≤ most_plotted) × (low ≤ most_plotted)) }
    ensures { result ≡ scale_of one high low }
{
    let step = step_for(one, high.max(low));
    let up = steps_to(high, step).max(1);
    let down = steps_to(low, step);
    let tick = 180 / (up + down);
    Scale {
        step,
        up,
        down,
        tick,
    }
}

// The height of a size.
pub fn height_of(s: Scale, size: u64) -> u64
    requires { Sound s × (size ≤ most_plotted) }
    ensures { result ≡ height_of s size }
{
    s.tick * size / s.step
}

// The line at zero.
pub fn zero_line(s: Scale) -> u64
    requires { Sound s }
    ensures { result ≡ zero_line s }
{
    24 + s.tick * s.up
}

// The lowest line.
pub fn foot_line(s: Scale) -> u64
    requires { Sound s }
    ensures { result ≡ foot_line s }
{
    24 + s.tick * (s.up + s.down)
}

// The unit that the axis is in.
#[tactic(auto, unfolding(crate::specs::Axis::unit_of))]
pub fn unit_of(one: u64, step: u64) -> u64
    requires { one ≤ most_one }
    ensures { result ≡ unit_of one step }
{
    if one * 1_000_000_000 <= step {
        1_000_000_000
    } else if one * 1_000_000 <= step {
        1_000_000
    } else if one * 1000 <= step {
        1000
    } else {
        1
    }
}

// A step as the axis shows it.
pub fn shown_step(one: u64, step: u64) -> u64
    requires { (1 ≤ one) × (one ≤ most_one) }
    ensures { result ≡ shown_step one step }
{
    step / (one * unit_of(one, step))
}
