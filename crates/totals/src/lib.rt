// The totals of the columns and of the diagonals of averages: the step for one cell, and a pass by row over a square cut out of rows. Laws about them, and about T, stand in proofs/.
#![tactic(auto)]

ghost use Rattle.std.specs.Prelude.{◌≡◌, ◌+◌, ◌≤◌, ◌<◌, pos, nat_abs, ◌+ℤ◌, length, get_or, set};
ghost use Rattle.rules.specs.Triangle.{TotalsSoFar, CellPassed};
ghost use Rattle.totals.specs.CellSizes.{most_average, Cells, TotalsSmall};
ghost use Rattle.totals.specs.Squares.{cut_of};
ghost use Rattle.totals.specs.Summed.{Summed};

// The diagonal of the cell in row i and column j.
fn diagonal_of(i: usize, j: usize) -> usize
    requires { i + j < 16 }
    ensures { result ≡ i + j }
{
    i + j
}

// A cell is added to one of sixteen totals.
fn add_to(totals: &mut [i64; 16], at: usize, cell: i64)
    requires { (at < 16) × ((nat_abs cell ≤ most_average) × TotalsSmall totals.old) }
    ensures { totals.new ≡ set totals.old at (get_or totals.old at (pos 0) +ℤ cell) }
{
    totals[at] += cell;
}

// The step for one cell: the average in row i and column j is added to the totals of its column and of its diagonal. Where they were the totals of the cells before it,
// they are now those of the cells passed so far, for every square that has this cell.
pub fn add_cell(cell: i64, i: usize, j: usize, columns: &mut [i64; 16], diagonals: &mut [i64; 16])
    requires { (i + j < 16) × ((nat_abs cell ≤ most_average) × (TotalsSmall columns.old × TotalsSmall diagonals.old)) }
    ensures { (columns.new ≡ set columns.old j (get_or columns.old j (pos 0) +ℤ cell))
        × ((diagonals.new ≡ set diagonals.old (i + j) (get_or diagonals.old (i + j) (pos 0) +ℤ cell))
        × CellPassed cell i j columns.old diagonals.old columns.new diagonals.new) }
{
    let h = diagonal_of(i, j);
    add_to(columns, j, cell);
    add_to(diagonals, h, cell);
}

// Adds the cells of row i of the square cut out of the rows from `first` on, one after another.
fn add_row(
    rows: &[[i64; 16]],
    first: usize,
    k: usize,
    i: usize,
    columns: &mut [i64; 16],
    diagonals: &mut [i64; 16],
)
    requires { (Cells rows.now × (first + k < length rows.now))
        × ((k < 16) × ((i ≤ k) × TotalsSoFar (cut_of rows.now first k) i 0 columns.old diagonals.old)) }
    ensures { TotalsSoFar (cut_of rows.now first k) (i + 1) 0 columns.new diagonals.new }
{
    let at = first + i;
    let count = k + 1 - i;
    for j in 0..count {
        add_cell(rows[at][j], i, j, columns, diagonals);
    }
}

// The totals of the columns and of the diagonals of the square cut out of the rows from `first` on, in one pass over the cells of its triangle, row by row, whatever the
// lists held.
pub fn fill_totals(
    rows: &[[i64; 16]],
    first: usize,
    k: usize,
    columns: &mut [i64; 16],
    diagonals: &mut [i64; 16],
)
    requires { (Cells rows.now × (first + k < length rows.now)) × (k < 16) }
    ensures { Summed (cut_of rows.now first k) k columns.new diagonals.new }
{
    *columns = [0i64; 16];
    *diagonals = [0i64; 16];
    let n = k + 1;
    for i in 0..n {
        add_row(rows, first, k, i, columns, diagonals);
    }
}
