// The tables of a hindsight run in the grid of a table.
#![tactic(auto)]

ghost use Rattle.std.specs.Prelude.{◌≡◌, ◌≤◌};
ghost use Rattle.rules.specs.Hindsight.{most_settings};
ghost use Rattle.hindsight_places.specs.Places.{LastYear};
ghost use Rattle.hindsight_cells.specs.Cells.{Shown};
ghost use Rattle.hindsight_grid.specs.Grid.{grid_values, grid_styles};

use hindsight_cells::{cell_style, cell_value, columns_of, rows_of};
use rules::{MOST_HINDSIGHT, MOST_SETTINGS};
use table_cells::MOST_PLACES;

// The values of table t.
pub fn grid_values(
    list: &[i64; MOST_HINDSIGHT],
    settings: &[u64; MOST_SETTINGS],
    k: usize,
    n: usize,
    a: usize,
    t: usize,
) -> [i64; MOST_PLACES]
    requires { Shown list.now settings.now k n a }
    ensures { result ≡ grid_values list.now settings.now k n a t }
{
    let columns = columns_of(t, k, n);
    let places = rows_of(t, k, n) * columns;
    let mut values = [0i64; MOST_PLACES];
    for p in 0..places {
        values[p] = cell_value(list, settings, k, n, a, t, p / columns, p % columns);
    }
    values
}

// Its styles.
pub fn grid_styles(list: &[i64; MOST_HINDSIGHT], k: usize, n: usize, t: usize) -> [u8; MOST_PLACES]
    requires { LastYear k × (n ≤ most_settings) }
    ensures { result ≡ grid_styles list.now k n t }
{
    let columns = columns_of(t, k, n);
    let places = rows_of(t, k, n) * columns;
    let mut styles = [0u8; MOST_PLACES];
    for p in 0..places {
        styles[p] = cell_style(list, k, n, t, p / columns, p % columns);
    }
    styles
}
