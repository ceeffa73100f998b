// How many cells a history has, by origin year and together.
#![tactic(auto)]

ghost use Rattle.std.specs.Prelude.{◌≡◌, ◌≤◌};
ghost use Rattle.rules.specs.History.{most_history, most_width, development_years, history_cells};

use rules::MOST_WIDTH;

// How many development years origin year i has.
#[tactic(auto, unfolding(rules::specs::History::development_years))]
pub fn development_years(years: usize, i: usize) -> usize
    requires { i ≤ years }
    ensures { (result ≡ development_years years i) × (result ≤ most_width) }
{
    (years - i).min(MOST_WIDTH)
}

// How many cells the origin years have together.
pub fn cells_of(years: usize) -> usize
    requires { years ≤ most_history }
    ensures { result ≡ history_cells years }
{
    (0..years).map(|i| development_years(years, i)).sum()
}
