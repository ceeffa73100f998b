// Heads and labels of a table of the report, in a lent buffer; how long they are.
#![tactic(auto)]

ghost use Rattle.std.specs.Prelude.{◌≡◌, ◌+◌, ◌≤◌, length};
ghost use Rattle.composing.specs.Text.{Put};
ghost use Rattle.table_heads.specs.Heads.{head, rows_in, label};

use composing::{put_bytes, put_decimal};
use lines::{line_length, put_line};
use number_lengths::decimal_length;

// The rows of a table's body, its columns after the labels, how many of the columns are development years, and the first year of the rows.
#[derive(Clone, Copy)]
pub struct Shape {
    pub rows: usize,
    pub columns: usize,
    pub years: usize,
    pub from: usize,
}

// The head of column j.
pub fn put_head(out: &mut [u8], at: usize, words: &[u8], shape: Shape, j: usize) -> usize
    requires { j ≤ 20 }
    ensures { Put out.old out.new at result (head words.now shape j) }
{
    if j < shape.years {
        put_decimal(out, at, j as u64)
    } else {
        put_line(out, at, words, (2 + (j - shape.years)) as u64)
    }
}

// How long the head of column j is.
pub fn head_length(words: &[u8], shape: Shape, j: usize) -> usize
    requires { j ≤ 20 }
    ensures { result ≡ length (head words.now shape j) }
{
    if j < shape.years {
        decimal_length(j as u64)
    } else {
        line_length(words, (2 + (j - shape.years)) as u64)
    }
}

// How many rows there are, the total too.
pub fn rows_in(total: &[u8], shape: Shape) -> usize
    requires { shape.rows ≤ 320 }
    ensures { result ≡ rows_in total.now shape }
{
    if total.len() == 0 {
        shape.rows
    } else {
        shape.rows + 1
    }
}

// The label of row i.
pub fn put_label(
    out: &mut [u8],
    at: usize,
    labels: &[u8],
    total: &[u8],
    shape: Shape,
    i: usize,
) -> usize
    requires { (shape.from ≤ 100000) × (i ≤ 320) }
    ensures { Put out.old out.new at result (label labels.now total.now shape i) }
{
    if i < shape.rows {
        if labels.len() == 0 {
            put_decimal(out, at, (shape.from + i) as u64)
        } else {
            put_line(out, at, labels, i as u64)
        }
    } else {
        put_bytes(out, at, total)
    }
}

// How long the label of row i is.
pub fn label_length(labels: &[u8], total: &[u8], shape: Shape, i: usize) -> usize
    requires { (shape.from ≤ 100000) × (i ≤ 320) }
    ensures { result ≡ length (label labels.now total.now shape i) }
{
    if i < shape.rows {
        if labels.len() == 0 {
            decimal_length((shape.from + i) as u64)
        } else {
            line_length(labels, i as u64)
        }
    } else {
        total.len()
    }
}
