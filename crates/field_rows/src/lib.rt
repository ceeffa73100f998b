// The rows of a record by their numbers, and a field of a row: whether it is in range, its value and the least of its kind.
#![tactic(auto)]

ghost use Rattle.std.specs.Prelude.{◌≡◌, ◌≤◌, ◌<◌, ◌^◌};
ghost use Rattle.field_rows.specs.Rows.{row_of, passes_in, value_in, least_in};

use layout::places_of;
use reading::{amount, sound};
use rules::{MILLION, MOST_AMOUNT, MOST_INDEX};

// A row of the record's layout: the bit place at which it starts, how many fields it has, the bits of each, whether the first of them is a sign, and the least and
// the most of a field's size.
#[derive(Clone, Copy)]
pub struct Row {
    pub at: usize,
    pub count: usize,
    pub bits: usize,
    pub signed: bool,
    pub least: u64,
    pub most: u64,
}

// Row r of a record of the years 0 to k.
pub fn row_of(k: usize, r: usize) -> Row
    requires { (k < 16) × ((1 ≤ r) × (r < 8)) }
    ensures { result ≡ row_of k r }
{
    let at = places_of(k);
    match r {
        1 => Row {
            at: 4,
            count: k + 1,
            bits: 20,
            signed: false,
            least: 1,
            most: MILLION,
        },
        2 => Row {
            at: at.increments,
            count: at.cells,
            bits: 35,
            signed: true,
            least: 0,
            most: MOST_AMOUNT,
        },
        3 => Row {
            at: at.indices,
            count: k + 1,
            bits: 23,
            signed: false,
            least: 1,
            most: MOST_INDEX,
        },
        4 => Row {
            at: at.reporting,
            count: k + 1,
            bits: 20,
            signed: false,
            least: 0,
            most: MILLION,
        },
        5 => Row {
            at: at.weight,
            count: 1,
            bits: 20,
            signed: false,
            least: 0,
            most: MILLION,
        },
        6 => Row {
            at: at.ulae,
            count: k + 1,
            bits: 34,
            signed: false,
            least: 0,
            most: MOST_AMOUNT,
        },
        _ => Row {
            at: at.tail,
            count: 1,
            bits: 34,
            signed: false,
            least: 0,
            most: MOST_AMOUNT,
        },
    }
}

// Whether a field of the row with these bits is in range.
#[tactic(auto, unfolding(crate::specs::Rows::passes_in))]
pub fn passes(row: Row, code: u64) -> bool
    requires { code < 2 ^ 35 }
    ensures { result ≡ passes_in row code }
{
    if row.signed {
        return sound(code);
    }
    row.least <= code && code <= row.most
}

// Its value.
pub fn value(row: Row, code: u64) -> i64
    requires { code < 2 ^ 35 }
    ensures { result ≡ value_in row code }
{
    if row.signed {
        return amount(code);
    }
    code as i64
}

// The least value of a field of the row.
pub fn least_value(row: Row) -> i64
    requires { (row.least < 2 ^ 63) × (row.most < 2 ^ 63) }
    ensures { result ≡ least_in row }
{
    if row.signed {
        return 0 - (row.most as i64);
    }
    row.least as i64
}
