// Questions 29 and 3 of a hindsight run.
#![tactic(auto)]

ghost use Rattle.std.specs.Prelude.{◌≡◌, ◌≤◌, ◌<◌};
ghost use Rattle.rules.specs.Hindsight.{most_settings, settings_pass, holds_report};

use entries::within;
use hindsight_settings::setting_count;
use rules::{MOST_INDEX, MOST_SETTINGS};

// 29.
#[tactic(auto, using(crate::proofs::Passed::ranges), unfolding(rules::specs::Hindsight::settings_pass))]
pub fn settings_pass(k: usize, settings: &[u64]) -> bool
    ensures { result ≡ settings_pass k settings.now }
{
    let n = settings.len();
    1 <= n && n <= MOST_SETTINGS && within(settings, n, 1, MOST_INDEX) && 2 <= k
}

// 3: whether a lent report of m entries holds that of n settings.
pub fn holds_report(k: usize, n: usize, m: usize) -> bool
    requires { ((1 ≤ k) × (k < 16)) × (n ≤ most_settings) }
    ensures { result ≡ holds_report k n m }
{
    n * setting_count(k) + 1 <= m
}
