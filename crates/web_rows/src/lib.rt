// A row of a table of the report in HTML: of the body, and of the total after it.
#![tactic(auto)]

ghost use Rattle.std.specs.Prelude.{◌+◌, ◌*◌, ◌≤◌};
ghost use Rattle.composing.specs.Text.{Put};
ghost use Rattle.table_heads.specs.Heads.{Fits};
ghost use Rattle.web_rows.specs.Rows.{web_cells, web_row, web_foot};

use composing::put_bytes;
use table_cells::{MOST_PLACES, put_web_cell_at};
use table_heads::{Shape, put_label};

// n cells from place p on.
fn put_web_cells(
    out: &mut [u8],
    at: usize,
    values: &[i64; MOST_PLACES],
    styles: &[u8; MOST_PLACES],
    p: usize,
    n: usize,
) -> usize
    requires { p + n ≤ 320 }
    ensures { Put out.old out.new at result (web_cells values.now styles.now p n) }
{
    let mut end = at;
    for j in 0..n {
        end = put_web_cell_at(out, end, values, styles, p + j);
    }
    end
}

// Row i of the body, or the total after it.
pub fn put_web_row(
    out: &mut [u8],
    at: usize,
    labels: &[u8],
    total: &[u8],
    shape: Shape,
    values: &[i64; MOST_PLACES],
    styles: &[u8; MOST_PLACES],
    i: usize,
) -> usize
    requires { Fits shape × (i ≤ shape.rows) }
    ensures { Put out.old out.new at result (web_row labels.now total.now shape values.now styles.now i) }
{
    let text = put_bytes(out, at, b"<tr><th scope=\"row\">");
    let a = put_label(out, text, labels, total, shape, i);
    let b = put_bytes(out, a, b"</th>");
    let end = put_web_cells(out, b, values, styles, i * shape.columns, shape.columns);
    put_bytes(out, end, b"</tr>\n")
}

// The total, where there is one.
pub fn put_web_foot(
    out: &mut [u8],
    at: usize,
    labels: &[u8],
    total: &[u8],
    shape: Shape,
    values: &[i64; MOST_PLACES],
    styles: &[u8; MOST_PLACES],
) -> usize
    requires { Fits shape }
    ensures { Put out.old out.new at result (web_foot labels.now total.now shape values.now styles.now) }
{
    if total.len() == 0 {
        at
    } else {
        let row = put_bytes(out, at, b"<tfoot>\n");
        let end = put_web_row(out, row, labels, total, shape, values, styles, shape.rows);
        put_bytes(out, end, b"</tfoot>\n")
    }
}
