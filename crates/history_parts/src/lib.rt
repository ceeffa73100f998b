// The exposures and the increments among the numbers of a history, which stand after its years and its width.
#![tactic(auto)]

ghost use Rattle.std.specs.Prelude.{◌≡◌, ◌≤◌, length};
ghost use Rattle.rules.specs.Lists.{padded};
ghost use Rattle.rules.specs.History.{most_history};
ghost use Rattle.sheet.specs.Table.{most_numbers};
ghost use Rattle.history_parts.specs.Parts.{exposures_after, increments_after};

use entries::size_of;
use history_cells::cells_of;
use rules::MOST_HISTORY;

// The exposures of so many origin years, zero past them.
pub fn exposures_of(list: &[i64], years: usize) -> [u64; MOST_HISTORY]
    requires { (length list.now ≡ most_numbers) × (years ≤ most_history) }
    ensures { result ≡ padded most_history 0 (exposures_after years list.now) }
{
    let mut exposures = [0u64; MOST_HISTORY];
    for (i, x) in list[2..2 + years].iter().enumerate() {
        exposures[i] = size_of(*x);
    }
    exposures
}

// Their increments by row.
pub fn increments_of(list: &[i64], years: usize) -> &[i64]
    requires { (length list.now ≡ most_numbers) × (years ≤ most_history) }
    ensures { result.now ≡ increments_after years list.now }
{
    let start = 2 + years;
    let end = start + cells_of(years);
    &list[start..end]
}
