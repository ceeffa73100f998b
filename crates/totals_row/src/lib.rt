// The total row of a table that stands in the two arrays.
#![tactic(auto)]

ghost use Rattle.std.specs.Prelude.{◌≡◌, cond, ℕ, ◌+◌, ◌*◌, ◌≤◌, ◌<◌, pos, nat_abs, get_or};
ghost use Rattle.std.proofs.lemmas.List.Edits.{sets};
ghost use Rattle.rules.specs.Lists.{up_to};
ghost use Rattle.table_cells.specs.Cells.{plain, styled, decimals_of};
ghost use Rattle.totals_row.specs.Totals.{most_value, column_sum, has_total, total_value, total_style};

use table_cells::{MARK_PLAIN, MOST_PLACES, decimals_of, styled};

// The sum of column j over the rows of the body.
fn column_sum(values: &[i64; MOST_PLACES], columns: usize, rows: usize, j: usize) -> i64
    requires { (rows * columns ≤ 320) × ((rows ≤ 64) × ((j < columns) × ((p : ℕ) → p < rows * columns → nat_abs (get_or values.now p (pos 0)) ≤ most_value))) }
    ensures { result ≡ column_sum values.now columns rows j }
{
    let mut sum: i64 = 0;
    for i in 0..rows {
        sum += values[i * columns + j];
    }
    sum
}

// Whether column j has a total.
#[tactic(auto, unfolding(crate::specs::Totals::has_total))]
fn has_total(first: usize, end: usize, j: usize) -> bool
    ensures { result ≡ has_total first end j }
{
    first <= j && j < end
}

// The total's value in column j.
fn total_value(
    values: &[i64; MOST_PLACES],
    columns: usize,
    rows: usize,
    first: usize,
    end: usize,
    j: usize,
) -> i64
    requires { (rows * columns ≤ 320) × ((rows ≤ 64) × ((j < columns) × ((p : ℕ) → p < rows * columns → nat_abs (get_or values.now p (pos 0)) ≤ most_value))) }
    ensures { result ≡ total_value values.now columns rows first end j }
{
    if has_total(first, end, j) {
        column_sum(values, columns, rows, j)
    } else {
        0
    }
}

// The total's style in column j, whose style in the first row is given.
fn total_style(style: u8, first: usize, end: usize, j: usize) -> u8
    ensures { result ≡ cond (has_total first end j) (styled plain (decimals_of style)) 0 }
{
    if has_total(first, end, j) {
        styled(MARK_PLAIN, decimals_of(style) as u8)
    } else {
        0
    }
}

// The row after the rows of the body gets the totals of the columns from `first` on before `end`; its other cells are blank.
pub fn fill_totals(
    values: &mut [i64; MOST_PLACES],
    styles: &mut [u8; MOST_PLACES],
    rows: usize,
    columns: usize,
    first: usize,
    end: usize,
)
    requires { ((rows + 1) * columns ≤ 320) × ((1 ≤ rows) × ((rows ≤ 64) × ((p : ℕ) → p < rows * columns → nat_abs (get_or values.old p (pos 0)) ≤ most_value))) }
    ensures { (values.new ≡ sets values.old (rows * columns) (up_to (total_value values.old columns rows first end) columns))
        × (styles.new ≡ sets styles.old (rows * columns) (up_to (total_style styles.old first end) columns)) }
{
    let p = rows * columns;
    for j in 0..columns {
        let total = total_value(values, columns, rows, first, end, j);
        let style = total_style(styles[j], first, end, j);
        values[p + j] = total;
        styles[p + j] = style;
    }
}
