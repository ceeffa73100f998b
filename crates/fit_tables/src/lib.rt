// The tables of the averages and of what is observed less what is fitted.
#![tactic(auto)]

ghost use Rattle.std.specs.Prelude.{◌≤◌, ◌<◌};
ghost use Rattle.composing.specs.Text.{Put};
ghost use Rattle.placing.specs.Placing.{blank, Holds};
ghost use Rattle.page_figures.specs.Given.{Figured};
ghost use Rattle.fit_tables.specs.Fit.{average_grid, average_table, gap_grid, gap_table};

use figure_places::added_at;
use placing::place_past;
use shading::{average_styles, gap_styles};
use table_cells::{MARK_PLAIN, MOST_PLACES, styled};
use triangle_tables::{place_column, put_summed_table};
use vectors::MOST_FIGURES;

// The grid of the averages.
fn fill_averages(
    values: &mut [i64; MOST_PLACES],
    styles: &mut [u8; MOST_PLACES],
    figures: &[i64; MOST_FIGURES],
    k: usize,
)
    requires { (k < 16) × (Figured k figures.now × Holds blank values.old styles.old) }
    ensures { Holds (average_grid k figures.now) values.new styles.new }
{
    let kinds = average_styles(k, figures);
    place_past(values, styles, figures, &kinds, k + 1, 0, k);
}

// The table of the averages.
pub fn put_average_table(
    out: &mut [u8],
    at: usize,
    html: bool,
    first: usize,
    k: usize,
    figures: &[i64; MOST_FIGURES],
) -> usize
    requires { (k < 16) × ((first ≤ 65535) × Figured k figures.now) }
    ensures { Put out.old out.new at result (average_table html first k figures.now) }
{
    let mut values = [0i64; MOST_PLACES];
    let mut styles = [0u8; MOST_PLACES];
    fill_averages(&mut values, &mut styles, figures, k);
    put_summed_table(
        out,
        at,
        html,
        b"Averages, by origin and development year\norigin year\n",
        b"total",
        first,
        k,
        k + 1,
        0,
        &mut values,
        &mut styles,
    )
}

// The grid of the gaps.
fn fill_gaps(
    values: &mut [i64; MOST_PLACES],
    styles: &mut [u8; MOST_PLACES],
    figures: &[i64; MOST_FIGURES],
    k: usize,
)
    requires { (k < 16) × (Figured k figures.now × Holds blank values.old styles.old) }
    ensures { Holds (gap_grid k figures.now) values.new styles.new }
{
    let added = added_at(k);
    let kinds = gap_styles(k, figures);
    let style = styled(MARK_PLAIN, 2);
    place_past(values, styles, figures, &kinds, k + 2, added.gaps, k);
    place_column(values, styles, figures, style, k + 1, k + 2, added.sums, k);
}

// The table of the gaps.
pub fn put_gap_table(
    out: &mut [u8],
    at: usize,
    html: bool,
    first: usize,
    k: usize,
    figures: &[i64; MOST_FIGURES],
) -> usize
    requires { (k < 16) × ((first ≤ 65535) × Figured k figures.now) }
    ensures { Put out.old out.new at result (gap_table html first k figures.now) }
{
    let mut values = [0i64; MOST_PLACES];
    let mut styles = [0u8; MOST_PLACES];
    fill_gaps(&mut values, &mut styles, figures, k);
    put_summed_table(
        out,
        at,
        html,
        b"Observed less fitted, by origin and development year\norigin year\nsum\n",
        b"sum",
        first,
        k,
        k + 2,
        0,
        &mut values,
        &mut styles,
    )
}
