// The columns of the tables of the levels by payment year.
#![tactic(auto)]

ghost use Rattle.std.specs.Prelude.{ℕ, ◌+◌, ◌*◌, ◌<◌, ◌≤◌};
ghost use Rattle.table_cells.specs.Cells.{most_places};
ghost use Rattle.vectors.specs.Vectors.{most_figures};
ghost use Rattle.placing.specs.Placing.{grid, Holds};
ghost use Rattle.level_columns.specs.LevelColumns.{placed_column, placed_levels, placed_future};

use figure_places::added_at;
use listing::starts_of;
use placing::place;
use table_cells::{MARK_PLAIN, MOST_PLACES, styled};
use vectors::MOST_FIGURES;

// n figures with d decimals from place `start` on, below each other from place `first` on in a table of c columns.
fn place_column(
    values: &mut [i64; MOST_PLACES],
    styles: &mut [u8; MOST_PLACES],
    figures: &[i64; MOST_FIGURES],
    d: u8,
    first: usize,
    c: usize,
    start: usize,
    n: usize,
)
    requires { (d < 10) × ((start + n ≤ most_figures) × ((n ≤ 16) × ((m : ℕ) → m < n → first + m * c < most_places))) }
    ensures { Holds (placed_column d first c start n figures.now (grid values.old styles.old)) values.new
        styles.new }
{
    let style = styled(MARK_PLAIN, d);
    place(values, styles, figures, style, first, c, start, n);
}

// The levels found and their changes.
pub fn place_levels(
    values: &mut [i64; MOST_PLACES],
    styles: &mut [u8; MOST_PLACES],
    figures: &[i64; MOST_FIGURES],
    k: usize,
)
    requires { k < 16 }
    ensures { Holds (placed_levels k figures.now (grid values.old styles.old)) values.new styles.new }
{
    let s = starts_of(k);
    let a = added_at(k);
    place_column(values, styles, figures, 2, 0, 2, s.levels, k + 1);
    place_column(values, styles, figures, 2, 3, 2, a.changes, k);
}

// The indices, the future levels and their changes, and the expected payments.
pub fn place_ahead(
    values: &mut [i64; MOST_PLACES],
    styles: &mut [u8; MOST_PLACES],
    figures: &[i64; MOST_FIGURES],
    k: usize,
)
    requires { k < 16 }
    ensures { Holds (placed_future k figures.now (grid values.old styles.old)) values.new styles.new }
{
    let s = starts_of(k);
    let a = added_at(k);
    place_column(values, styles, figures, 6, 0, 4, a.indices, k + 1);
    place_column(values, styles, figures, 2, 1, 4, s.ahead, k);
    place_column(values, styles, figures, 2, 2, 4, a.changes + k, k);
    place_column(values, styles, figures, 0, 3, 4, a.expected, k + 1);
}
