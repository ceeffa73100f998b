// The width of a column of a table as text.
#![tactic(auto)]

ghost use Rattle.std.specs.Prelude.{◌≡◌, ◌+◌, ◌<◌};
ghost use Rattle.table_heads.specs.Heads.{Fits};
ghost use Rattle.column_width.specs.Width.{column_width};

use table_cells::{MOST_PLACES, column_places, larger};
use table_heads::{Shape, head_length, rows_in};

// The width of column j.
pub fn width_of(
    words: &[u8],
    total: &[u8],
    shape: Shape,
    values: &[i64; MOST_PLACES],
    styles: &[u8; MOST_PLACES],
    j: usize,
) -> usize
    requires { Fits shape × (j < shape.columns) }
    ensures { result ≡ column_width words.now total.now shape values.now styles.now j }
{
    let cells = column_places(values, styles, shape.columns, rows_in(total, shape), j);
    2 + larger(head_length(words, shape, j), cells)
}
