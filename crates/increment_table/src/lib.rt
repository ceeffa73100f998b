// The table of the paid increments as given.
#![tactic(auto)]

ghost use Rattle.std.specs.Prelude.{◌≤◌, ◌<◌};
ghost use Rattle.composing.specs.Text.{Put};
ghost use Rattle.placing.specs.Placing.{blank, Holds};
ghost use Rattle.page_figures.specs.Given.{Figured};
ghost use Rattle.increment_table.specs.Increments.{increment_grid, increment_table};

use figure_places::added_at;
use placing::place_past_as;
use table_cells::{MARK_PLAIN, MOST_PLACES, styled};
use triangle_tables::{place_column, put_summed_table};
use vectors::MOST_FIGURES;

// The grid.
fn fill_increments(
    values: &mut [i64; MOST_PLACES],
    styles: &mut [u8; MOST_PLACES],
    figures: &[i64; MOST_FIGURES],
    k: usize,
)
    requires { (k < 16) × Holds blank values.old styles.old }
    ensures { Holds (increment_grid k figures.now) values.new styles.new }
{
    let added = added_at(k);
    let style = styled(MARK_PLAIN, 0);
    place_past_as(values, styles, figures, style, k + 2, added.increments, k);
    place_column(values, styles, figures, style, k + 1, k + 2, added.paid, k);
}

// The table.
pub fn put_increment_table(
    out: &mut [u8],
    at: usize,
    html: bool,
    first: usize,
    k: usize,
    figures: &[i64; MOST_FIGURES],
) -> usize
    requires { (k < 16) × ((first ≤ 65535) × Figured k figures.now) }
    ensures { Put out.old out.new at result (increment_table html first k figures.now) }
{
    let mut values = [0i64; MOST_PLACES];
    let mut styles = [0u8; MOST_PLACES];
    fill_increments(&mut values, &mut styles, figures, k);
    put_summed_table(
        out,
        at,
        html,
        b"Paid increments, by origin and development year\norigin year\ntotal\n",
        b"total",
        first,
        k,
        k + 2,
        0,
        &mut values,
        &mut styles,
    )
}
