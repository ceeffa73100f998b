// Where a question says no, and the figures there.
#![tactic(auto)]

ghost use Rattle.std.specs.Prelude.{◌≡◌, ◌<◌, ◌^◌, pos};
ghost use Rattle.finding.specs.Places.{found};

// The kind of place, its row and its column, and up to three figures, zeros past them. An origin or payment year is a row, a development year a column; index e_t is in
// row t - 1. A field of the record has the kind FIELD plus its row in the record's layout, which is at least 1.
#[derive(Clone, Copy)]
pub struct Finding {
    pub place: u64,
    pub row: usize,
    pub column: usize,
    pub one: i64,
    pub two: i64,
    pub three: i64,
}

pub const NOWHERE: u64 = 0;

pub const ORIGIN_YEAR: u64 = 1;

pub const DEVELOPMENT_YEAR: u64 = 2;

pub const PAYMENT_YEAR: u64 = 3;

pub const CELL: u64 = 4;

pub const FIELD: u64 = 4;

// A finding whose figures are not below 0.
pub fn of_naturals(place: u64, row: usize, column: usize, one: u64, two: u64, three: u64) -> Finding
    requires { (one < 2 ^ 63) × ((two < 2 ^ 63) × (three < 2 ^ 63)) }
    ensures { result ≡ found place row column (pos one) (pos two) (pos three) }
{
    Finding {
        place,
        row,
        column,
        one: one as i64,
        two: two as i64,
        three: three as i64,
    }
}
