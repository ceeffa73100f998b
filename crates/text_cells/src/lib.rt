// The cells of a row of a table as text, each at the right of its column.
#![tactic(auto)]

ghost use Rattle.std.specs.Prelude.{cond, ◌≡◌, eqb, ◌+◌, ◌≤◌, ◌<◌};
ghost use Rattle.composing.specs.Text.{Put, right};
ghost use Rattle.table_cells.specs.Cells.{text_cell_at};
ghost use Rattle.text_cells.specs.Cells.{filled, text_cells};

use aligning::left_of;
use composing::put_spaces;
use table_cells::{MOST_PLACES, cell_length_at, put_text_cell_at};

// How many columns a table has at most.
pub const MOST_COLUMNS: usize = 20;

// The cell at place p, at the right of w places.
fn put_right_cell(
    out: &mut [u8],
    at: usize,
    w: usize,
    values: &[i64; MOST_PLACES],
    styles: &[u8; MOST_PLACES],
    p: usize,
) -> usize
    requires { p < 320 }
    ensures { Put out.old out.new at result (right w (text_cell_at values.now styles.now p)) }
{
    let start = put_spaces(out, at, left_of(w, cell_length_at(values, styles, p)));
    put_text_cell_at(out, start, values, styles, p)
}

// How many cells there are up to the last that is not blank, with cell j after those before it.
fn filled_after(style: u8, last: usize, j: usize) -> usize
    requires { j < 320 }
    ensures { result ≡ cond (eqb style 0) last (j + 1) }
{
    if style == 0 { last } else { j + 1 }
}

// How many of n cells from place p on there are up to the last that is not blank.
pub fn filled_in(styles: &[u8; MOST_PLACES], p: usize, n: usize) -> usize
    requires { p + n ≤ 320 }
    ensures { result ≡ filled styles.now p n }
{
    let mut last: usize = 0;
    for j in 0..n {
        last = filled_after(styles[p + j], last, j);
    }
    last
}

// n cells from place p on, in columns of these widths.
pub fn put_text_cells(
    out: &mut [u8],
    at: usize,
    widths: &[usize; MOST_COLUMNS],
    values: &[i64; MOST_PLACES],
    styles: &[u8; MOST_PLACES],
    p: usize,
    n: usize,
) -> usize
    requires { (p + n ≤ 320) × (n ≤ 20) }
    ensures { Put out.old out.new at result (text_cells widths.now values.now styles.now p n) }
{
    let mut end = at;
    for j in 0..n {
        end = put_right_cell(out, end, widths[j], values, styles, p + j);
    }
    end
}
