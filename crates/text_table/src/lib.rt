// A table of the report as text, in a lent buffer.
#![tactic(auto)]

ghost use Rattle.std.specs.Prelude.{◌≡◌, ◌*◌, ◌≤◌, length};
ghost use Rattle.rules.specs.Lists.{up_to, joined, padded};
ghost use Rattle.composing.specs.Text.{Put, right};
ghost use Rattle.lines.specs.Lines.{line_of};
ghost use Rattle.table_cells.specs.Cells.{largest};
ghost use Rattle.table_heads.specs.Heads.{Fits, head, rows_in, label};
ghost use Rattle.column_width.specs.Width.{column_width};
ghost use Rattle.text_table.specs.Plain.{left, column_heads, label_places, head_line, row_line, text_table};

use aligning::left_of;
use column_width::width_of;
use composing::{put_bytes, put_spaces};
use lines::{line_length, put_line};
use table_cells::{MOST_PLACES, larger};
use table_heads::{Shape, head_length, label_length, put_head, put_label, rows_in};
use text_cells::{MOST_COLUMNS, filled_in, put_text_cells};

// The head of column j, at the right of w places.
fn put_right_head(
    out: &mut [u8],
    at: usize,
    w: usize,
    words: &[u8],
    shape: Shape,
    j: usize,
) -> usize
    requires { j ≤ 20 }
    ensures { Put out.old out.new at result (right w (head words.now shape j)) }
{
    let start = put_spaces(out, at, left_of(w, head_length(words, shape, j)));
    put_head(out, start, words, shape, j)
}

// The label of row i, at the left of w places.
fn put_left_label(
    out: &mut [u8],
    at: usize,
    w: usize,
    labels: &[u8],
    total: &[u8],
    shape: Shape,
    i: usize,
) -> usize
    requires { (shape.from ≤ 100000) × (i ≤ 320) }
    ensures { Put out.old out.new at result (left w (label labels.now total.now shape i)) }
{
    let end = put_label(out, at, labels, total, shape, i);
    put_spaces(out, end, left_of(w, label_length(labels, total, shape, i)))
}

// Line n of a text, at the left of w places.
fn put_left_line(out: &mut [u8], at: usize, w: usize, text: &[u8], n: u64) -> usize
    ensures { Put out.old out.new at result (left w (line_of n text.now)) }
{
    let end = put_line(out, at, text, n);
    put_spaces(out, end, left_of(w, line_length(text, n)))
}

// The heads of the columns.
fn put_column_heads(
    out: &mut [u8],
    at: usize,
    widths: &[usize; MOST_COLUMNS],
    words: &[u8],
    shape: Shape,
) -> usize
    requires { shape.columns ≤ 20 }
    ensures { Put out.old out.new at result (column_heads widths.now words.now shape) }
{
    let mut end = at;
    let n = shape.columns;
    for j in 0..n {
        end = put_right_head(out, end, widths[j], words, shape, j);
    }
    end
}

// How long the longest label is.
fn longest_label(labels: &[u8], total: &[u8], shape: Shape, n: usize) -> usize
    requires { (shape.from ≤ 100000) × (n ≤ 321) }
    ensures { result ≡ largest (λ i. length (label labels.now total.now shape i)) n }
{
    let mut most: usize = 0;
    for i in 0..n {
        most = larger(most, label_length(labels, total, shape, i));
    }
    most
}

// The widths of the columns.
fn column_widths(
    words: &[u8],
    total: &[u8],
    shape: Shape,
    values: &[i64; MOST_PLACES],
    styles: &[u8; MOST_PLACES],
) -> [usize; MOST_COLUMNS]
    requires { Fits shape }
    ensures { result ≡ padded 20 0 (up_to (column_width words.now total.now shape values.now styles.now) shape.columns) }
{
    let mut widths: [usize; MOST_COLUMNS] = [0; MOST_COLUMNS];
    let n = shape.columns;
    for j in 0..n {
        widths[j] = width_of(words, total, shape, values, styles, j);
    }
    widths
}

// The line of heads.
fn put_head_line(
    out: &mut [u8],
    at: usize,
    words: &[u8],
    shape: Shape,
    places: usize,
    widths: &[usize; MOST_COLUMNS],
) -> usize
    requires { shape.columns ≤ 20 }
    ensures { Put out.old out.new at result (head_line words.now shape places widths.now) }
{
    let heads = put_left_line(out, at, places, words, 1);
    let end = put_column_heads(out, heads, widths, words, shape);
    put_bytes(out, end, b"\n")
}

// The line of row i, or of the total after the rows.
fn put_row_line(
    out: &mut [u8],
    at: usize,
    labels: &[u8],
    total: &[u8],
    shape: Shape,
    values: &[i64; MOST_PLACES],
    styles: &[u8; MOST_PLACES],
    places: usize,
    widths: &[usize; MOST_COLUMNS],
    i: usize,
) -> usize
    requires { Fits shape × (i ≤ shape.rows) }
    ensures { Put out.old out.new at result (row_line labels.now total.now shape values.now styles.now places widths.now i) }
{
    let p = i * shape.columns;
    let cells = put_left_label(out, at, places, labels, total, shape, i);
    let end = put_text_cells(
        out,
        cells,
        widths,
        values,
        styles,
        p,
        filled_in(styles, p, shape.columns),
    );
    put_bytes(out, end, b"\n")
}

// The lines of the rows, the total's too.
fn put_row_lines(
    out: &mut [u8],
    at: usize,
    labels: &[u8],
    total: &[u8],
    shape: Shape,
    values: &[i64; MOST_PLACES],
    styles: &[u8; MOST_PLACES],
    places: usize,
    widths: &[usize; MOST_COLUMNS],
) -> usize
    requires { Fits shape }
    ensures { Put out.old out.new at result (joined (up_to (row_line labels.now total.now shape values.now styles.now places widths.now) (rows_in total.now shape))) }
{
    let mut end = at;
    let n = rows_in(total, shape);
    for i in 0..n {
        end = put_row_line(
            out, end, labels, total, shape, values, styles, places, widths, i,
        );
    }
    end
}

// The places of the labels.
fn label_places(words: &[u8], labels: &[u8], total: &[u8], shape: Shape) -> usize
    requires { Fits shape }
    ensures { result ≡ label_places words.now labels.now total.now shape }
{
    let longest = longest_label(labels, total, shape, rows_in(total, shape));
    larger(line_length(words, 1), longest)
}

// The table.
pub fn put_text_table(
    out: &mut [u8],
    at: usize,
    words: &[u8],
    labels: &[u8],
    total: &[u8],
    shape: Shape,
    values: &[i64; MOST_PLACES],
    styles: &[u8; MOST_PLACES],
) -> usize
    requires { Fits shape }
    ensures { Put out.old out.new at result (text_table words.now labels.now total.now shape values.now styles.now) }
{
    let places = label_places(words, labels, total, shape);
    let widths = column_widths(words, total, shape, values, styles);
    let a = put_bytes(out, at, b"\n");
    let b = put_line(out, a, words, 0);
    let c = put_bytes(out, b, b"\n");
    let d = put_head_line(out, c, words, shape, places, &widths);
    put_row_lines(
        out, d, labels, total, shape, values, styles, places, &widths,
    )
}
