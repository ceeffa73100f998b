// The report of a hindsight run: the fit of each step once, the entries of every setting, and the place of the best one.
#![tactic(auto)]

ghost use Rattle.std.specs.Prelude.{◌≡◌, map, length};
ghost use Rattle.std.proofs.lemmas.List.Edits.{sets};
ghost use Rattle.rules.specs.Lists.{joined};
ghost use Rattle.rules.specs.Hindsight.{gap_sum, setting_entries, hindsight_list};
ghost use Rattle.totals.specs.Squares.{cut_of};
ghost use Rattle.totals.specs.Summed.{Summed};
ghost use Rattle.hindsight_list.specs.Reported.{Reported};

use best_setting::best_of;
use entries::put_natural;
use hindsight_fits::fill_fits;
use hindsight_settings::{put_settings, setting_count};

// The entries of every setting of figures with these averages go into the list from its start on, and their sums into a list of their own. The totals of the averages are
// taken down to those of the smallest triangle.
fn fill_settings(
    k: usize,
    exposures: &[u64; 16],
    increments: &[i64; 136],
    averages: &[[i64; 16]; 16],
    columns: &mut [i64; 16],
    diagonals: &mut [i64; 16],
    settings: &[u64],
    report: &mut [i64],
    sums: &mut [u64; 8],
)
    requires { Reported k exposures.now increments.now averages.now columns.old diagonals.old settings.now (length report.old) }
    ensures { (report.new ≡ sets report.old 0 (joined (map (setting_entries k exposures.now increments.now) settings.now)))
        × ((sums.new ≡ sets sums.old 0 (map (gap_sum k exposures.now increments.now) settings.now))
        × Summed (cut_of averages.now 0 1) 1 columns.new diagonals.new) }
{
    let mut marks = [0u64; 16];
    let mut levels = [0u64; 16];
    let mut shares = [[0u64; 16]; 16];
    fill_fits(
        averages,
        k - 1,
        columns,
        diagonals,
        &mut marks,
        &mut levels,
        &mut shares,
    );
    put_settings(
        report, settings, k, exposures, increments, &marks, &levels, &shares, sums,
    );
}

// The report of figures with these averages goes into the list from its start on, and their totals are taken down to those of the smallest triangle.
pub fn fill_report(
    k: usize,
    exposures: &[u64; 16],
    increments: &[i64; 136],
    averages: &[[i64; 16]; 16],
    columns: &mut [i64; 16],
    diagonals: &mut [i64; 16],
    settings: &[u64],
    report: &mut [i64],
)
    requires { Reported k exposures.now increments.now averages.now columns.old diagonals.old settings.now (length report.old) }
    ensures { (report.new ≡ sets report.old 0 (hindsight_list k exposures.now increments.now settings.now))
        × Summed (cut_of averages.now 0 1) 1 columns.new diagonals.new }
{
    let mut sums = [0u64; 8];
    fill_settings(
        k, exposures, increments, averages, columns, diagonals, settings, report, &mut sums,
    );
    let n = settings.len();
    let best = best_of(&sums[..n]);
    put_natural(report, n * setting_count(k), best as u64);
}
