// A table whose columns are figures of the report beside each other, in a lent buffer.
#![tactic(auto)]

ghost use Rattle.composing.specs.Text.{Put};
ghost use Rattle.column_table.specs.ColumnTable.{column_table, Columned};

use columns::place_columns;
use table::put_table;
use table_cells::MOST_PLACES;
use table_heads::Shape;
use totals_row::fill_totals;
use vectors::MOST_FIGURES;

// Column j has the figures from place starts[j] on, with decimals[j] decimals; those from `first` on before `end` have totals.
pub fn put_column_table(
    out: &mut [u8],
    at: usize,
    html: bool,
    words: &[u8],
    total: &[u8],
    shape: Shape,
    figures: &[i64; MOST_FIGURES],
    starts: &[usize; 12],
    decimals: &[u8; 12],
    first: usize,
    end: usize,
) -> usize
    requires { Columned shape starts.now decimals.now figures.now }
    ensures { Put out.old out.new at result (column_table html words.now total.now shape starts.now decimals.now first end figures.now) }
{
    let mut values = [0i64; MOST_PLACES];
    let mut styles = [0u8; MOST_PLACES];
    place_columns(
        &mut values,
        &mut styles,
        figures,
        starts,
        decimals,
        shape.columns,
        shape.rows,
    );
    fill_totals(
        &mut values,
        &mut styles,
        shape.rows,
        shape.columns,
        first,
        end,
    );
    put_table(
        out, at, html, false, words, b"", total, shape, &values, &styles,
    )
}
