// Sections of the report's figures that are worked out by row of a triangle.
#![tactic(auto)]

ghost use Rattle.std.specs.Prelude.{◌≡◌, ◌+◌, ◌≤◌, ◌<◌};
ghost use Rattle.std.proofs.lemmas.List.Edits.{sets};
ghost use Rattle.rules.specs.Record.{cells};
ghost use Rattle.signed_sums.specs.Small.{most_figure, Sized};
ghost use Rattle.vectors.specs.Vectors.{most_figures};
ghost use Rattle.row_figures.specs.RowFigures.{row_sums, rows_running};

use signed_sums::sum_along;
use vectors::{MOST_FIGURES, put_running};

// The running sums of each row of a triangle that stands from place a on.
pub fn put_rows_running(out: &mut [i64; MOST_FIGURES], at: usize, a: usize, k: usize)
    requires { (k < 16) × ((at + cells k ≤ most_figures) × ((a + cells k ≤ at) × Sized most_figure a (cells k) out.old)) }
    ensures { out.new ≡ sets out.old at (rows_running k a out.old) }
{
    let n = k + 1;
    let mut from: usize = 0;
    for i in 0..n {
        put_running(out, at + from, a + from, n - i);
        from += n - i;
    }
}

// The sum of each row.
pub fn put_row_sums(out: &mut [i64; MOST_FIGURES], at: usize, a: usize, k: usize)
    requires { (k < 16) × ((at + k < most_figures) × ((a + cells k ≤ at) × Sized most_figure a (cells k) out.old)) }
    ensures { out.new ≡ sets out.old at (row_sums k a out.old) }
{
    let n = k + 1;
    let mut from: usize = 0;
    for i in 0..n {
        let sum = sum_along(out, a + from, 1, n - i);
        out[at + i] = sum;
        from += n - i;
    }
}
