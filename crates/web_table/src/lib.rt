// A table of the report in HTML, in a lent buffer.
#![tactic(auto)]

ghost use Rattle.std.specs.Prelude.{◌≤◌};
ghost use Rattle.rules.specs.Lists.{up_to, joined};
ghost use Rattle.composing.specs.Text.{Put};
ghost use Rattle.table_heads.specs.Heads.{Fits};
ghost use Rattle.web_table.specs.Web.{web_top, web_head, web_heads, web_body, web_table};
ghost use Rattle.web_rows.specs.Rows.{web_row};

use composing::{put_bytes, put_decimal};
use lines::put_line;
use parts::put_only;
use table_cells::MOST_PLACES;
use table_heads::{Shape, put_head, rows_in};
use table_width::measure_of;
use web_rows::{put_web_foot, put_web_row};

// The table's element and the caption.
fn put_web_top(out: &mut [u8], at: usize, key: bool, words: &[u8], width: usize) -> usize
    ensures { Put out.old out.new at result (web_top key words.now width) }
{
    let kind = put_bytes(out, at, b"<div class=\"t\" tabindex=\"0\"><table");
    let style = put_only(out, kind, key, b" class=\"k\"");
    let number = put_bytes(out, style, b" style=\"--n:");
    let name = put_decimal(out, number, width as u64);
    let text = put_bytes(out, name, b"\">\n<caption>");
    let end = put_line(out, text, words, 0);
    put_bytes(out, end, b"</caption>\n")
}

// The head of column j.
fn put_web_head(out: &mut [u8], at: usize, words: &[u8], shape: Shape, j: usize) -> usize
    requires { j ≤ 20 }
    ensures { Put out.old out.new at result (web_head words.now shape j) }
{
    let text = put_bytes(out, at, b"<th scope=\"col\">");
    let end = put_head(out, text, words, shape, j);
    put_bytes(out, end, b"</th>")
}

// The heads of the columns.
fn put_web_column_heads(out: &mut [u8], at: usize, words: &[u8], shape: Shape) -> usize
    requires { shape.columns ≤ 20 }
    ensures { Put out.old out.new at result (joined (up_to (web_head words.now shape) shape.columns)) }
{
    let mut end = at;
    let n = shape.columns;
    for j in 0..n {
        end = put_web_head(out, end, words, shape, j);
    }
    end
}

// The row of heads.
fn put_web_heads(out: &mut [u8], at: usize, words: &[u8], shape: Shape) -> usize
    requires { shape.columns ≤ 20 }
    ensures { Put out.old out.new at result (web_heads words.now shape) }
{
    let text = put_bytes(out, at, b"<thead><tr><th scope=\"col\">");
    let a = put_line(out, text, words, 1);
    let b = put_bytes(out, a, b"</th>");
    let end = put_web_column_heads(out, b, words, shape);
    put_bytes(out, end, b"</tr></thead>\n")
}

// The rows of the body.
fn put_web_rows(
    out: &mut [u8],
    at: usize,
    labels: &[u8],
    total: &[u8],
    shape: Shape,
    values: &[i64; MOST_PLACES],
    styles: &[u8; MOST_PLACES],
) -> usize
    requires { Fits shape }
    ensures { Put out.old out.new at result (joined (up_to (web_row labels.now total.now shape values.now styles.now) shape.rows)) }
{
    let mut end = at;
    let n = shape.rows;
    for i in 0..n {
        end = put_web_row(out, end, labels, total, shape, values, styles, i);
    }
    end
}

// The body.
fn put_web_body(
    out: &mut [u8],
    at: usize,
    labels: &[u8],
    total: &[u8],
    shape: Shape,
    values: &[i64; MOST_PLACES],
    styles: &[u8; MOST_PLACES],
) -> usize
    requires { Fits shape }
    ensures { Put out.old out.new at result (web_body labels.now total.now shape values.now styles.now) }
{
    let first = put_bytes(out, at, b"<tbody>\n");
    let end = put_web_rows(out, first, labels, total, shape, values, styles);
    put_bytes(out, end, b"</tbody>\n")
}

// The table.
pub fn put_web_table(
    out: &mut [u8],
    at: usize,
    key: bool,
    words: &[u8],
    labels: &[u8],
    total: &[u8],
    shape: Shape,
    values: &[i64; MOST_PLACES],
    styles: &[u8; MOST_PLACES],
) -> usize
    requires { Fits shape }
    ensures { Put out.old out.new at result (web_table labels.now total.now shape values.now styles.now key words.now) }
{
    let width = measure_of(values, styles, shape.columns, rows_in(total, shape));
    let heads = put_web_top(out, at, key, words, width);
    let body = put_web_heads(out, heads, words, shape);
    let foot = put_web_body(out, body, labels, total, shape, values, styles);
    let end = put_web_foot(out, foot, labels, total, shape, values, styles);
    put_bytes(out, end, b"</table></div>\n")
}
