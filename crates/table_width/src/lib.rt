// The width of a table of the report in characters.
#![tactic(auto)]

ghost use Rattle.std.specs.Prelude.{◌≡◌, ◌+◌, ◌*◌, ◌≤◌};
ghost use Rattle.table_width.specs.Width.{measure};

use table_cells::{MOST_PLACES, column_places, larger};

// The table's width in characters.
pub fn measure_of(
    values: &[i64; MOST_PLACES],
    styles: &[u8; MOST_PLACES],
    columns: usize,
    n: usize,
) -> usize
    requires { (columns ≤ 20) × (n * columns ≤ 320) }
    ensures { result ≡ measure values.now styles.now columns n }
{
    let mut width: usize = 6;
    for j in 0..columns {
        width += 2 + larger(4, column_places(values, styles, columns, n, j));
    }
    width
}
