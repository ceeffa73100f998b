// The averages of a history that windows of a width can have, each worked out once.
#![tactic(auto)]

ghost use Rattle.std.specs.Prelude.{◌≡◌, ◌+◌, ◌≤◌, pos, length, get_or, replicate};
ghost use Rattle.std.proofs.lemmas.List.Edits.{sets};
ghost use Rattle.rules.specs.Lists.{up_to};
ghost use Rattle.rules.specs.Record.{million};
ghost use Rattle.rules.specs.Triangle.{average_of};
ghost use Rattle.rules.specs.History.{most_history, most_width, history_cells};
ghost use Rattle.triangle.specs.Columns.{Increments};
ghost use Rattle.history_questions.specs.Asked.{Claims};
ghost use Rattle.history_averages.specs.HistoryRows.{no_year, history_rows};

use averages::average;
use history_cells::development_years;
use rules::MOST_HISTORY;

// The averages of `count` increments from place `at` on, over one exposure.
fn fill_year(row: &mut [i64; 16], cells: &[i64], at: usize, count: usize, claims: u64)
    requires { (count ≤ most_width)
        × ((at + count ≤ length cells.now) × (Increments cells.now × ((1 ≤ claims) × (claims ≤ million)))) }
    ensures { row.new
        ≡ sets row.old 0 (up_to (λ j. average_of (get_or cells.now (at + j) (pos 0)) claims) count) }
{
    for (j, cell) in cells[at..at + count].iter().enumerate() {
        row[j] = average(*cell, claims);
    }
}

// The averages by origin year that windows of a width can have, into rows of zeros.
pub fn fill_history(
    years: usize,
    width: usize,
    exposures: &[u64],
    cells: &[i64],
    rows: &mut [[i64; 16]; MOST_HISTORY],
)
    requires { (years ≤ most_history)
        × (((length exposures.now ≡ years) × (length cells.now ≡ history_cells years))
        × ((Claims years exposures.now × Increments cells.now) × (rows.old ≡ replicate most_history no_year))) }
    ensures { rows.new ≡ history_rows years width exposures.now cells.now years }
{
    let mut at: usize = 0;
    for i in 0..years {
        let paid = development_years(years, i);
        let count = width.min(paid);
        fill_year(&mut rows[i], cells, at, count, exposures[i]);
        at += paid;
    }
}
