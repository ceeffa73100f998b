// Columns of figures placed beside each other in the grid of a table.
#![tactic(auto)]

ghost use Rattle.std.specs.Prelude.{◌≡◌, ℕ, ◌+◌, ◌*◌, ◌≤◌, ◌<◌, get_or};
ghost use Rattle.table_cells.specs.Cells.{most_places};
ghost use Rattle.vectors.specs.Vectors.{most_figures};
ghost use Rattle.placing.specs.Placing.{grid, Holds};
ghost use Rattle.columns.specs.Columns.{columns_up_to};

use placing::place;
use table_cells::{MARK_PLAIN, MOST_PLACES, styled};
use vectors::MOST_FIGURES;

// Column j gets `rows` figures from place starts[j] on, with decimals[j] decimals.
pub fn place_columns(
    values: &mut [i64; MOST_PLACES],
    styles: &mut [u8; MOST_PLACES],
    figures: &[i64; MOST_FIGURES],
    starts: &[usize; 12],
    decimals: &[u8; 12],
    columns: usize,
    rows: usize,
)
    requires { (columns ≤ 12) × ((rows ≤ 17) × ((rows * columns ≤ most_places)
        × ((j : ℕ) → j < columns → (get_or starts.now j 0 + rows ≤ most_figures) × (get_or decimals.now j 0 < 10)))) }
    ensures { Holds (columns_up_to columns rows starts.now decimals.now columns figures.now (grid values.old styles.old))
        values.new styles.new }
{
    for j in 0..columns {
        place(
            values,
            styles,
            figures,
            styled(MARK_PLAIN, decimals[j]),
            j,
            columns,
            starts[j],
            rows,
        );
    }
}
