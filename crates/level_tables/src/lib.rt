// The tables of the levels by payment year, in a lent buffer.
#![tactic(auto)]

ghost use Rattle.std.specs.Prelude.{◌+◌, ◌<◌, ◌≤◌};
ghost use Rattle.composing.specs.Text.{Put};
ghost use Rattle.page_figures.specs.Given.{Figured};
ghost use Rattle.level_tables.specs.Levels.{level_table, future_table};

use level_columns::{place_ahead, place_levels};
use table::put_table;
use table_cells::MOST_PLACES;
use table_heads::Shape;
use totals_row::fill_totals;
use vectors::MOST_FIGURES;

// The table of the levels found.
pub fn put_level_table(
    out: &mut [u8],
    at: usize,
    html: bool,
    first: usize,
    k: usize,
    figures: &[i64; MOST_FIGURES],
) -> usize
    requires { (k < 16) × (first ≤ 65535) }
    ensures { Put out.old out.new at result (level_table html first k figures.now) }
{
    let mut values = [0i64; MOST_PLACES];
    let mut styles = [0u8; MOST_PLACES];
    place_levels(&mut values, &mut styles, figures, k);
    let shape = Shape {
        rows: k + 1,
        columns: 2,
        years: 0,
        from: first,
    };
    put_table(
        out,
        at,
        html,
        false,
        b"Levels up to the latest year\npayment year\nlevel\nchange on the year before\n",
        b"",
        b"",
        shape,
        &values,
        &styles,
    )
}

// The table of the future levels.
pub fn put_future_table(
    out: &mut [u8],
    at: usize,
    html: bool,
    first: usize,
    k: usize,
    figures: &[i64; MOST_FIGURES],
) -> usize
    requires { (k < 16) × ((first ≤ 65535) × Figured k figures.now) }
    ensures { Put out.old out.new at result (future_table html first k figures.now) }
{
    let mut values = [0i64; MOST_PLACES];
    let mut styles = [0u8; MOST_PLACES];
    place_ahead(&mut values, &mut styles, figures, k);
    fill_totals(&mut values, &mut styles, k + 1, 4, 3, 4);
    let shape = Shape {
        rows: k + 1,
        columns: 4,
        years: 0,
        from: first + k + 1,
    };
    put_table(
        out,
        at,
        html,
        false,
        b"Future levels and expected payments\npayment year\nindex\nlevel\nchange on the year before\nexpected payments\n",
        b"",
        b"total",
        shape,
        &values,
        &styles,
    )
}
