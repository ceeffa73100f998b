// The whole list of a history as comma-separated values: it is never cut.
#![tactic(auto)]

ghost use Rattle.std.specs.Prelude.{◌≡◌, ◌<◌, length, take};
ghost use Rattle.history_places.specs.Places.{Windowed};
ghost use Rattle.history_csv.specs.Csv.{history_csv};
ghost use Rattle.history_csv_lengths.specs.Text.{most_history_csv};

use history_csv::put_history_csv;
use rules::MOST_HISTORY_ENTRIES;

// More bytes than the longest has.
pub const MOST_HISTORY_CSV: usize = 196_608;

// The comma-separated values of a history, and where they end.
pub fn history_csv_of(
    text: &mut [u8; MOST_HISTORY_CSV],
    first: usize,
    years: usize,
    width: usize,
    list: &[i64; MOST_HISTORY_ENTRIES],
) -> usize
    requires { Windowed years width first }
    ensures upper_bound { (result < most_history_csv) × (take result text.new ≡ history_csv first years width list.now) }
    ensures text_len { length text.new ≡ most_history_csv }
{
    put_history_csv(text, first, years, width, list)
}
