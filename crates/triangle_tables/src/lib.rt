// Tables of a triangle.
#![tactic(auto)]

ghost use Rattle.std.specs.Prelude.{◌+◌, ◌≤◌, ◌<◌};
ghost use Rattle.rules.specs.Record.{cells};
ghost use Rattle.rules.specs.Triangle.{future_start};
ghost use Rattle.composing.specs.Text.{Put};
ghost use Rattle.vectors.specs.Vectors.{most_figures};
ghost use Rattle.placing.specs.Placing.{grid, Holds, Totalling};
ghost use Rattle.triangle_tables.specs.Tables.{square, column_of, triangle_table, summed_table};

use placing::{place, place_future, place_past_as};
use table::put_table;
use table_cells::{MARK_FUTURE, MARK_PLAIN, MOST_PLACES, styled};
use table_heads::Shape;
use totals_row::fill_totals;
use vectors::MOST_FIGURES;

// Amounts up to the diagonal and past it.
pub fn place_square(
    values: &mut [i64; MOST_PLACES],
    styles: &mut [u8; MOST_PLACES],
    figures: &[i64; MOST_FIGURES],
    c: usize,
    past: usize,
    ahead: usize,
    k: usize,
)
    requires { (k < 16) × ((k < c) × ((c ≤ k + 3) × ((past + cells k ≤ most_figures) × (ahead + future_start (k + 1) ≤ most_figures)))) }
    ensures { Holds (square c past ahead k figures.now (grid values.old styles.old)) values.new styles.new }
{
    place_past_as(values, styles, figures, styled(MARK_PLAIN, 0), c, past, k);
    place_future(values, styles, figures, styled(MARK_FUTURE, 0), c, ahead, k);
}

// Column j.
pub fn place_column(
    values: &mut [i64; MOST_PLACES],
    styles: &mut [u8; MOST_PLACES],
    figures: &[i64; MOST_FIGURES],
    style: u8,
    j: usize,
    c: usize,
    start: usize,
    k: usize,
)
    requires { (k < 16) × ((j < c) × ((c ≤ k + 3) × (start + (k + 1) ≤ most_figures))) }
    ensures { Holds (column_of style j c start k figures.now (grid values.old styles.old)) values.new styles.new }
{
    place(values, styles, figures, style, j, c, start, k + 1);
}

// The table of a grid.
pub fn put_triangle_table(
    out: &mut [u8],
    at: usize,
    html: bool,
    words: &[u8],
    total: &[u8],
    first: usize,
    k: usize,
    c: usize,
    values: &[i64; MOST_PLACES],
    styles: &[u8; MOST_PLACES],
) -> usize
    requires { (k < 16) × ((first ≤ 65535) × (c ≤ k + 3)) }
    ensures { Put out.old out.new at result
        (triangle_table html words.now total.now first k c (grid values.now styles.now)) }
{
    let shape = Shape {
        rows: k + 1,
        columns: c,
        years: k + 1,
        from: first,
    };
    put_table(
        out, at, html, false, words, b"", total, shape, values, styles,
    )
}

// With the sums of the columns from column j on.
pub fn put_summed_table(
    out: &mut [u8],
    at: usize,
    html: bool,
    words: &[u8],
    total: &[u8],
    first: usize,
    k: usize,
    c: usize,
    j: usize,
    values: &mut [i64; MOST_PLACES],
    styles: &mut [u8; MOST_PLACES],
) -> usize
    requires { (k < 16) × ((first ≤ 65535) × ((c ≤ k + 3) × Totalling (grid values.old styles.old))) }
    ensures { Put out.old out.new at result
        (summed_table html words.now total.now first k c j (grid values.old styles.old)) }
{
    fill_totals(values, styles, k + 1, c, j, c);
    put_triangle_table(out, at, html, words, total, first, k, c, values, styles)
}
