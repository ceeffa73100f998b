// The bars of the plot of a development year's share by position, in a lent buffer.
#![tactic(auto)]

ghost use Rattle.std.specs.Prelude.{◌+◌, ◌≤◌, ◌<◌};
ghost use Rattle.axis.specs.Axis.{Sound};
ghost use Rattle.composing.specs.Text.{Put};
ghost use Rattle.drift_bars.specs.Bars.{drift_bar, drift_label, drift_slot, drift_bars, Drawn, AllDrawn};

use axis::{Scale, foot_line};
use drawing::put_bar;
use drift_scale::share_at;
use figure_caption::DARK;
use history_places::is_refused;
use rules::MOST_HISTORY_ENTRIES;
use shapes::put_slot_label;

// The bar of position a.
fn put_drift_bar(
    out: &mut [u8],
    at: usize,
    scale: Scale,
    first: usize,
    list: &[i64; MOST_HISTORY_ENTRIES],
    width: usize,
    j: usize,
    a: usize,
) -> usize
    requires { Drawn scale first list.now width j a }
    ensures { Put out.old out.new at result (drift_bar scale first list.now width j a) }
{
    if is_refused(list, width, a) {
        at
    } else {
        let x = 58 + 15 * (a as u64);
        let label = (first + a) as u64;
        put_bar(
            out,
            at,
            scale,
            DARK,
            x,
            11,
            label,
            9,
            share_at(list, width, j, a),
        )
    }
}

// Its label.
fn put_drift_label(out: &mut [u8], at: usize, scale: Scale, first: usize, a: usize) -> usize
    requires { Sound scale × ((first ≤ 65535) × (a ≤ 64)) }
    ensures { Put out.old out.new at result (drift_label scale first a) }
{
    if a % 2 == 0 {
        let x = 63 + 15 * (a as u64);
        put_slot_label(out, at, x, foot_line(scale) + 16, (first + a) as u64)
    } else {
        at
    }
}

// Both.
fn put_drift_slot(
    out: &mut [u8],
    at: usize,
    scale: Scale,
    first: usize,
    list: &[i64; MOST_HISTORY_ENTRIES],
    width: usize,
    j: usize,
    a: usize,
) -> usize
    requires { Drawn scale first list.now width j a }
    ensures { Put out.old out.new at result (drift_slot scale first list.now width j a) }
{
    let end = put_drift_bar(out, at, scale, first, list, width, j, a);
    put_drift_label(out, end, scale, first, a)
}

// The bars and labels of n positions.
pub fn put_drift_bars(
    out: &mut [u8],
    at: usize,
    scale: Scale,
    first: usize,
    list: &[i64; MOST_HISTORY_ENTRIES],
    width: usize,
    j: usize,
    n: usize,
) -> usize
    requires { AllDrawn scale first list.now width j n }
    ensures { Put out.old out.new at result (drift_bars scale first list.now width j n) }
{
    let mut end = at;
    for a in 0..n {
        end = put_drift_slot(out, end, scale, first, list, width, j, a);
    }
    end
}
