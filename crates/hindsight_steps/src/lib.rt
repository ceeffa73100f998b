// The sum of absolute gaps of one step of a hindsight run.
#![tactic(auto)]

ghost use Rattle.std.specs.Prelude.{◌≡◌, ◌<◌};
ghost use Rattle.rules.specs.Hindsight.{most_settings};
ghost use Rattle.hindsight_places.specs.Places.{Step, GapsSmall};
ghost use Rattle.hindsight_steps.specs.Steps.{step_sum};

use entries::size_of;
use hindsight_places::gap_of;
use rules::MOST_HINDSIGHT;

// Of step h with setting a.
pub fn step_sum(list: &[i64; MOST_HINDSIGHT], k: usize, a: usize, h: usize) -> u64
    requires { (a < most_settings) × (Step k h × GapsSmall list.now) }
    ensures { result ≡ step_sum list.now k a h }
{
    let mut sum: u64 = 0;
    for m in 0..h {
        sum += size_of(gap_of(list, k, a, h, m + 1));
    }
    sum
}
