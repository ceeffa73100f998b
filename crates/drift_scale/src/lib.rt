// The scale of the plot of a development year's share by position.
#![tactic(auto)]

ghost use Rattle.std.specs.Prelude.{◌≡◌, ◌+◌, ◌≤◌, ◌<◌};
ghost use Rattle.rules.specs.History.{most_history, most_width};
ghost use Rattle.history_places.specs.Places.{Inside};
ghost use Rattle.drift_scale.specs.Scales.{share_at, largest_share, in_percent, one_for};

use axis::side_of;
use history_places::entry_of;
use rules::MOST_HISTORY_ENTRIES;

// The share of development year j in position a.
pub fn share_at(list: &[i64; MOST_HISTORY_ENTRIES], width: usize, j: usize, a: usize) -> i64
    requires { Inside width a × (j < width) }
    ensures { result ≡ share_at list.now width j a }
{
    entry_of(list, width, a, 1 + j)
}

// How far the shares of the first n positions go on one side of zero.
pub fn largest_share(
    list: &[i64; MOST_HISTORY_ENTRIES],
    low: bool,
    width: usize,
    j: usize,
    n: usize,
) -> u64
    requires { (n + width ≤ most_history + 1) × ((width ≤ most_width) × (j < width)) }
    ensures { result ≡ largest_share low list.now width j n }
{
    let mut largest: u64 = 0;
    for a in 0..n {
        largest = largest.max(side_of(low, share_at(list, width, j, a)));
    }
    largest
}

// Whether the axis is in percent.
pub fn in_percent(high: u64) -> bool
    ensures { result ≡ in_percent high }
{
    10_000_000 <= high
}

// How many billionths make one of the axis.
pub fn one_for(high: u64) -> u64
    ensures { result ≡ one_for high }
{
    if in_percent(high) { 10_000_000 } else { 10_000 }
}
