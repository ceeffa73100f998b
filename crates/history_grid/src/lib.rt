// Positions of a history in the grid of a table.
#![tactic(auto)]

ghost use Rattle.std.specs.Prelude.{◌≡◌, ◌+◌, ◌≤◌, ◌<◌};
ghost use Rattle.history_places.specs.Places.{Inside};
ghost use Rattle.history_grid.specs.Grid.{cell_value, cell_style, grid_values, grid_styles, Rows};

use history_places::{entry_of, is_refused};
use rules::MOST_HISTORY_ENTRIES;
use table_cells::{MARK_PLAIN, MOST_PLACES, styled};

// The value in column j of position a.
fn cell_value(
    list: &[i64; MOST_HISTORY_ENTRIES],
    width: usize,
    offset: usize,
    a: usize,
    j: usize,
) -> i64
    requires { Inside width a × ((offset ≤ width + 1) × (j ≤ width)) }
    ensures { result ≡ cell_value list.now width offset a j }
{
    if j == width {
        entry_of(list, width, a, 0)
    } else {
        entry_of(list, width, a, offset + j)
    }
}

// Its style.
fn cell_style(list: &[i64; MOST_HISTORY_ENTRIES], width: usize, d: u8, a: usize, j: usize) -> u8
    requires { Inside width a × (d < 10) }
    ensures { result ≡ cell_style list.now width d a j }
{
    if is_refused(list, width, a) {
        if j == width { styled(MARK_PLAIN, 0) } else { 0 }
    } else {
        if j == width { 0 } else { styled(MARK_PLAIN, d) }
    }
}

// The values of n positions from position `from` on.
pub fn grid_values(
    list: &[i64; MOST_HISTORY_ENTRIES],
    width: usize,
    offset: usize,
    from: usize,
    n: usize,
) -> [i64; MOST_PLACES]
    requires { Rows width from n × (offset ≤ width + 1) }
    ensures { result ≡ grid_values list.now width offset from n }
{
    let columns = width + 1;
    let places = n * columns;
    let mut values = [0i64; MOST_PLACES];
    for p in 0..places {
        values[p] = cell_value(list, width, offset, from + p / columns, p % columns);
    }
    values
}

// Their styles.
pub fn grid_styles(
    list: &[i64; MOST_HISTORY_ENTRIES],
    width: usize,
    d: u8,
    from: usize,
    n: usize,
) -> [u8; MOST_PLACES]
    requires { Rows width from n × (d < 10) }
    ensures { result ≡ grid_styles list.now width d from n }
{
    let columns = width + 1;
    let places = n * columns;
    let mut styles = [0u8; MOST_PLACES];
    for p in 0..places {
        styles[p] = cell_style(list, width, d, from + p / columns, p % columns);
    }
    styles
}
