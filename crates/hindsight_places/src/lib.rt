// Entries of the report of a hindsight run by setting and step.
#![tactic(auto)]

ghost use Rattle.std.specs.Prelude.{◌≡◌, ◌+◌, ◌*◌, ◌≤◌, ◌<◌};
ghost use Rattle.rules.specs.Hindsight.{most_settings, most_hindsight, setting_count};
ghost use Rattle.hindsight_places.specs.Places.{LastYear, Setting, Step, entry_at, step_start, step_entry, mark_at, marked, gap_at, sum_at, best_at};

use entries::size_of;
use rules::MOST_HINDSIGHT;

// How many entries a setting has.
fn setting_count(k: usize) -> usize
    requires { LastYear k }
    ensures { result ≡ setting_count k }
{
    k + k * (k - 1) / 2
}

// Entry e of setting a.
fn entry_of(list: &[i64; MOST_HINDSIGHT], k: usize, a: usize, e: usize) -> i64
    requires { LastYear k × (a * setting_count k + e < most_hindsight) }
    ensures { result ≡ entry_at list.now k a e }
{
    list[a * setting_count(k) + e]
}

// Where step h starts among them.
fn step_start(k: usize, h: usize) -> usize
    requires { Step k h }
    ensures { result ≡ step_start k h }
{
    (k - 1 - h) * (k + h + 2) / 2
}

// Entry e of step h in setting a.
fn step_entry(list: &[i64; MOST_HINDSIGHT], k: usize, a: usize, h: usize, e: usize) -> i64
    requires { (a < most_settings) × (Step k h × (e ≤ h)) }
    ensures { result ≡ step_entry list.now k a h e }
{
    entry_of(list, k, a, step_start(k, h) + e)
}

// The mark of step h.
pub fn mark_of(list: &[i64; MOST_HINDSIGHT], k: usize, h: usize) -> u64
    requires { Step k h }
    ensures { result ≡ mark_at list.now k h }
{
    size_of(step_entry(list, k, 0, h, 0))
}

// Whether step h is marked.
#[tactic(auto, unfolding(crate::specs::Places::marked))]
pub fn is_marked(list: &[i64; MOST_HINDSIGHT], k: usize, h: usize) -> bool
    requires { Step k h }
    ensures { result ≡ marked list.now k h }
{
    mark_of(list, k, h) != 0
}

// The gap of origin year i in step h with setting a.
pub fn gap_of(list: &[i64; MOST_HINDSIGHT], k: usize, a: usize, h: usize, i: usize) -> i64
    requires { (a < most_settings) × (Step k h × ((1 ≤ i) × (i ≤ h))) }
    ensures { result ≡ gap_at list.now k a h i }
{
    step_entry(list, k, a, h, i)
}

// The sum of absolute gaps of setting a.
pub fn sum_of(list: &[i64; MOST_HINDSIGHT], k: usize, a: usize) -> u64
    requires { Setting k a }
    ensures { result ≡ sum_at list.now k a }
{
    size_of(entry_of(list, k, a, setting_count(k) - 1))
}

// The place of the best of n settings.
pub fn best_of(list: &[i64; MOST_HINDSIGHT], k: usize, n: usize) -> usize
    requires { LastYear k × (n ≤ most_settings) }
    ensures { result ≡ best_at list.now k n }
{
    size_of(entry_of(list, k, n, 0)) as usize
}
