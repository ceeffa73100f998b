// The entries of the settings of a hindsight run: of each the entries of its steps, and the sum of absolute gaps.
#![tactic(auto)]

ghost use Rattle.std.specs.Prelude.{◌≡◌, map, ℕ, ◌+◌, ◌*◌, ◌≤◌, ◌<◌, length, get_or};
ghost use Rattle.std.proofs.lemmas.List.Edits.{sets};
ghost use Rattle.rules.specs.Lists.{joined};
ghost use Rattle.rules.specs.Record.{most_index};
ghost use Rattle.rules.specs.Hindsight.{most_settings, step_entries, step_years, gap_sum, setting_entries, setting_count};
ghost use Rattle.hindsight_gaps.specs.Fitted.{Given};
ghost use Rattle.hindsight_settings.specs.Steps.{most_sum, AllFitted};

use entries::put_natural;
use hindsight_gaps::put_step;

// How many entries a setting has.
pub fn setting_count(k: usize) -> usize
    requires { (1 ≤ k) × (k < 16) }
    ensures { (result ≡ setting_count k) × (result ≤ 120) }
{
    k + k * (k - 1) / 2
}

// The entries of the steps with a trial index, largest triangle first, go into out from place `at` on; the sum of absolute gaps.
fn put_steps(
    out: &mut [i64],
    at: usize,
    k: usize,
    index: u64,
    exposures: &[u64; 16],
    increments: &[i64; 136],
    marks: &[u64; 16],
    levels: &[u64; 16],
    shares: &[[u64; 16]; 16],
) -> u64
    requires { (Given k exposures.now increments.now × ((1 ≤ k) × (at + setting_count k ≤ length out.old)))
        × ((index ≤ most_index) × AllFitted k exposures.now increments.now marks.now levels.now shares.now) }
    ensures { (result ≡ gap_sum k exposures.now increments.now index)
        × ((result ≤ most_sum)
        × (out.new ≡ sets out.old at (joined (map (step_entries k exposures.now increments.now index) (step_years k))))) }
{
    let mut sum: u64 = 0;
    let mut next = at;
    let n = k - 1;
    for m in 0..n {
        let h = n - m;
        sum += put_step(
            out, next, k, h, index, marks[m], levels[m], exposures, increments, &shares[m],
        );
        next += 1 + h;
    }
    sum
}

// The entries of a setting go into out from place `at` on; its sum.
fn put_setting(
    out: &mut [i64],
    at: usize,
    k: usize,
    index: u64,
    exposures: &[u64; 16],
    increments: &[i64; 136],
    marks: &[u64; 16],
    levels: &[u64; 16],
    shares: &[[u64; 16]; 16],
) -> u64
    requires { (Given k exposures.now increments.now × ((1 ≤ k) × (at + setting_count k ≤ length out.old)))
        × ((index ≤ most_index) × AllFitted k exposures.now increments.now marks.now levels.now shares.now) }
    ensures { (result ≡ gap_sum k exposures.now increments.now index)
        × (out.new ≡ sets out.old at (setting_entries k exposures.now increments.now index)) }
{
    let sum = put_steps(
        out, at, k, index, exposures, increments, marks, levels, shares,
    );
    let last = at + setting_count(k) - 1;
    put_natural(out, last, sum);
    sum
}

// The entries of the settings go into out from its start on, and their sums into the list.
pub fn put_settings(
    out: &mut [i64],
    settings: &[u64],
    k: usize,
    exposures: &[u64; 16],
    increments: &[i64; 136],
    marks: &[u64; 16],
    levels: &[u64; 16],
    shares: &[[u64; 16]; 16],
    sums: &mut [u64; 8],
)
    requires { (Given k exposures.now increments.now
        × ((1 ≤ k) × ((length settings.now ≤ most_settings) × (length settings.now * setting_count k ≤ length out.old))))
        × (((i : ℕ) → get_or settings.now i 0 ≤ most_index) × AllFitted k exposures.now increments.now marks.now levels.now shares.now) }
    ensures { (out.new ≡ sets out.old 0 (joined (map (setting_entries k exposures.now increments.now) settings.now)))
        × (sums.new ≡ sets sums.old 0 (map (gap_sum k exposures.now increments.now) settings.now)) }
{
    let size = setting_count(k);
    for (a, index) in settings.iter().enumerate() {
        sums[a] = put_setting(
            out,
            a * size,
            k,
            *index,
            exposures,
            increments,
            marks,
            levels,
            shares,
        );
    }
}
