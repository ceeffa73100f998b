// The whole report of a hindsight run as comma-separated values: it is never cut.
#![tactic(auto)]

ghost use Rattle.std.specs.Prelude.{◌≡◌, ◌<◌, length, take};
ghost use Rattle.hindsight_places.specs.Places.{Tried, GapsSmall, SettingsSmall};
ghost use Rattle.hindsight_csv.specs.Csv.{hindsight_csv};
ghost use Rattle.hindsight_csv_lengths.specs.Text.{most_hindsight_csv};

use hindsight_csv::put_hindsight_csv;
use rules::{MOST_HINDSIGHT, MOST_SETTINGS};

// More bytes than the longest has.
pub const MOST_HINDSIGHT_CSV: usize = 196_608;

// The comma-separated values of settings and their report, and where they end.
pub fn hindsight_csv_of(
    text: &mut [u8; MOST_HINDSIGHT_CSV],
    first: usize,
    k: usize,
    n: usize,
    settings: &[u64; MOST_SETTINGS],
    list: &[i64; MOST_HINDSIGHT],
) -> usize
    requires { (Tried k n first × GapsSmall list.now) × SettingsSmall settings.now n }
    ensures upper_bound { (result < most_hindsight_csv) × (take result text.new ≡ hindsight_csv first k n settings.now list.now) }
    ensures text_len { length text.new ≡ most_hindsight_csv }
{
    put_hindsight_csv(text, first, k, n, settings, list)
}
