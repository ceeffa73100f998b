// The year or years of a field of a record.
#![tactic(auto)]

ghost use Rattle.std.specs.Prelude.{◌≡◌, ◌-◌, ◌<◌};
ghost use Rattle.rules.specs.Record.{cells, count_of};
ghost use Rattle.rules.specs.Triangle.{row_start};
ghost use Rattle.field_spots.specs.Spots.{cell_row, spot, spot_of};

// The row and the column of a field within its row of the layout.
#[derive(Clone, Copy)]
pub struct Spot {
    pub row: usize,
    pub column: usize,
}

// The row and the column of cell m of the triangle, counted row by row.
fn cell_of(k: usize, m: usize) -> Spot
    requires { (k < 16) × (m < cells k) }
    ensures { result ≡ spot (cell_row k m) (m - row_start k (cell_row k m)) }
{
    let mut start: usize = 0;
    for i in 0..k {
        let next = start + (k + 1 - i);
        if m < next {
            return Spot {
                row: i,
                column: m - start,
            };
        }
        start = next;
    }
    Spot {
        row: k,
        column: m - start,
    }
}

// The year or years of field m of row r.
pub fn spot_of(k: usize, r: usize, m: usize) -> Spot
    requires { (k < 16) × (m < count_of k r) }
    ensures { result ≡ spot_of k r m }
{
    match r {
        2 => cell_of(k, m),
        4 => Spot { row: 0, column: m },
        _ => Spot { row: m, column: 0 },
    }
}
