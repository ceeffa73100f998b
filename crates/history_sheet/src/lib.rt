// The lines of a text of a history, and of either text: of a history or of figures.
#![tactic(auto)]

ghost use Rattle.std.specs.Prelude.{◌≡◌, ◌≤◌};
ghost use Rattle.rules.specs.History.{most_width, development_years};
ghost use Rattle.sheet.specs.Table.{history_due_at, lines_in, due_in, most_first};

use history_cells::development_years;
use rules::{LEAST_WIDTH, MILLION, MOST_AMOUNT, MOST_HISTORY};
use sheet::{Due, due_at};

// The most numbers of a history: years, width, 64 exposures and 904 increments.
pub const MOST_NUMBERS: usize = 970;

// How many increments the line of origin year i takes, 0 where there is none such.
fn increments_at(years: usize, i: usize) -> usize
    ensures { (result ≡ development_years years i) × (result ≤ most_width) }
{
    if i < years {
        development_years(years, i)
    } else {
        0
    }
}

// The line due at a place of a history of so many years. A width is at most the years, and at most 16, as are the development years of the first origin year.
pub fn history_due_at(years: usize, place: usize) -> Due
    ensures { result ≡ history_due_at years place }
{
    if place == 0 {
        return Due {
            row: 8,
            count: 1,
            least: LEAST_WIDTH as i64,
            most: MOST_HISTORY as i64,
        };
    }
    if place == 1 {
        return Due {
            row: 9,
            count: 1,
            least: LEAST_WIDTH as i64,
            most: increments_at(years, 0) as i64,
        };
    }
    if place == 2 {
        return Due {
            row: 1,
            count: years,
            least: 1,
            most: MILLION as i64,
        };
    }
    Due {
        row: 2,
        count: increments_at(years, place - 3),
        least: 0 - (MOST_AMOUNT as i64),
        most: MOST_AMOUNT as i64,
    }
}

// The line due at a place of a text of which n is the first number.
pub fn due_in(history: bool, n: usize, place: usize) -> Due
    requires { n ≤ most_first history }
    ensures { result ≡ due_in history n place }
{
    if history {
        return history_due_at(n, place);
    }
    due_at(n, place)
}

// How many lines it has.
pub fn lines_in(history: bool, n: usize) -> usize
    requires { n ≤ most_first history }
    ensures { result ≡ lines_in history n }
{
    if history { n + 3 } else { n + 8 }
}
