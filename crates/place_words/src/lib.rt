// The words of a place where a question says no, in a lent buffer.
#![tactic(auto)]

ghost use Rattle.std.specs.Prelude.{◌≤◌, ◌<◌};
ghost use Rattle.composing.specs.Text.{Put};
ghost use Rattle.place_words.specs.PlaceWords.{origin_text, development_text, payment_text, cell_text, index_text, field_text, years_text, place_text};

use composing::{put_bytes, put_decimal};
use finding::{CELL, DEVELOPMENT_YEAR, ORIGIN_YEAR, PAYMENT_YEAR};
use lines::put_line;

// An origin year, counted from the first.
fn put_origin_year(out: &mut [u8], at: usize, first: usize, row: usize) -> usize
    requires { (first ≤ 65535) × (row < 16) }
    ensures { Put out.old out.new at result (origin_text first row) }
{
    let a = put_bytes(out, at, b"origin year ");
    put_decimal(out, a, (first + row) as u64)
}

// A development year.
fn put_development_year(out: &mut [u8], at: usize, column: usize) -> usize
    ensures { Put out.old out.new at result (development_text column) }
{
    let a = put_bytes(out, at, b"development year ");
    put_decimal(out, a, column as u64)
}

// A payment year, counted from the first.
fn put_payment_year(out: &mut [u8], at: usize, first: usize, row: usize) -> usize
    requires { (first ≤ 65535) × (row < 16) }
    ensures { Put out.old out.new at result (payment_text first row) }
{
    let a = put_bytes(out, at, b"payment year ");
    put_decimal(out, a, (first + row) as u64)
}

// A cell of the triangle.
fn put_cell(out: &mut [u8], at: usize, first: usize, row: usize, column: usize) -> usize
    requires { (first ≤ 65535) × (row < 16) }
    ensures { Put out.old out.new at result (cell_text first row column) }
{
    let a = put_origin_year(out, at, first, row);
    let b = put_bytes(out, a, b", ");
    put_development_year(out, b, column)
}

// The number of an index, from 1 on.
fn put_index(out: &mut [u8], at: usize, row: usize) -> usize
    requires { row < 16 }
    ensures { Put out.old out.new at result (index_text row) }
{
    put_decimal(out, at, (row + 1) as u64)
}

// What kind of field it is, where it is a field.
fn put_field(out: &mut [u8], at: usize, place: u64) -> usize
    ensures { Put out.old out.new at result (field_text place) }
{
    put_line(
        out,
        at,
        b"




exposure of 
paid increment of 
index e_
reporting share of 
reporting weight
ULAE total of 
amount still to be paid for the first origin year
",
        place,
    )
}

// Its years: fields of the record have the years of their kind.
fn put_years(
    out: &mut [u8],
    at: usize,
    first: usize,
    place: u64,
    row: usize,
    column: usize,
) -> usize
    requires { (first ≤ 65535) × (row < 16) }
    ensures { Put out.old out.new at result (years_text first place row column) }
{
    if place == ORIGIN_YEAR {
        return put_origin_year(out, at, first, row);
    }
    if place == DEVELOPMENT_YEAR {
        return put_development_year(out, at, column);
    }
    if place == PAYMENT_YEAR {
        return put_payment_year(out, at, first, row);
    }
    if place == CELL {
        return put_cell(out, at, first, row, column);
    }
    if place == 5 {
        return put_origin_year(out, at, first, row);
    }
    if place == 6 {
        return put_cell(out, at, first, row, column);
    }
    if place == 7 {
        return put_index(out, at, row);
    }
    if place == 8 {
        return put_development_year(out, at, column);
    }
    if place == 10 {
        return put_payment_year(out, at, first, row);
    }
    at
}

// The place.
pub fn put_place(
    out: &mut [u8],
    at: usize,
    first: usize,
    place: u64,
    row: usize,
    column: usize,
) -> usize
    requires { (first ≤ 65535) × (row < 16) }
    ensures { Put out.old out.new at result (place_text first place row column) }
{
    let a = put_field(out, at, place);
    put_years(out, a, first, place, row, column)
}
