// A section of the result list as comma-separated values in a lent buffer, and the line of a number beside the list.
#![tactic(auto)]

ghost use Rattle.std.specs.Prelude.{◌≡◌, ◌++◌, ◌+◌, ◌≤◌, ◌<◌};
ghost use Rattle.rules.specs.Results.{most_entries};
ghost use Rattle.composing.specs.Text.{ascii, integer, Put};
ghost use Rattle.rows.specs.Rows.{entries_in};
ghost use Rattle.csv_rows.specs.Csv.{given_cells, future_cells, by_origin, by_year, alone, year_text, csv_line, csv_row, csv_section, csv_beside};

use composing::{put_byte, put_bytes, put_decimal};
use rows::{Rows, falling_from, level_at, next_row, rising_from};
use rules::MOST_ENTRIES;
use signed_text::put_integer;

// The rows of a section, and whether its entries have an origin year and a development or payment year.
#[derive(Clone, Copy)]
pub struct Shape {
    pub n: usize,
    pub rows: Rows,
    pub origin: bool,
    pub year: bool,
}

// The cells that are given, by row.
pub fn given_cells(k: usize) -> Shape
    requires { k < 16 }
    ensures { result ≡ given_cells k }
{
    Shape {
        n: k + 1,
        rows: falling_from(k + 1),
        origin: true,
        year: true,
    }
}

// The cells past the diagonal, by row.
pub fn future_cells(k: usize) -> Shape
    requires { k < 16 }
    ensures { result ≡ future_cells k }
{
    Shape {
        n: k + 1,
        rows: rising_from(k + 1),
        origin: true,
        year: true,
    }
}

// An entry for each origin year.
pub fn by_origin(k: usize) -> Shape
    requires { k < 16 }
    ensures { result ≡ by_origin k }
{
    Shape {
        n: k + 1,
        rows: level_at(0, 1),
        origin: true,
        year: false,
    }
}

// m entries, for the years from y on.
pub fn by_year(y: usize, m: usize) -> Shape
    ensures { result ≡ by_year y m }
{
    Shape {
        n: 1,
        rows: level_at(y, m),
        origin: false,
        year: true,
    }
}

// One entry, of no year.
pub fn by_itself() -> Shape
    ensures { result ≡ alone }
{
    Shape {
        n: 1,
        rows: level_at(0, 1),
        origin: false,
        year: false,
    }
}

// A year, or nothing where there is none.
fn put_year(out: &mut [u8], at: usize, shown: bool, y: usize) -> usize
    ensures { Put out.old out.new at result (year_text shown y) }
{
    if shown {
        return put_decimal(out, at, y as u64);
    }
    at
}

// The name of a section and the years of an entry.
fn put_years(
    out: &mut [u8],
    at: usize,
    name: &[u8],
    origin: bool,
    year: bool,
    i: usize,
    y: usize,
) -> usize
    ensures { Put out.old out.new at result
        (name.now ++ (ascii "," ++ (year_text origin i ++ (ascii "," ++ year_text year y)))) }
{
    let a = put_bytes(out, at, name);
    let b = put_byte(out, a, b',');
    let c = put_year(out, b, origin, i);
    let d = put_byte(out, c, b',');
    put_year(out, d, year, y)
}

// The value of an entry and its unit.
fn put_value(out: &mut [u8], at: usize, z: i64, unit: &[u8]) -> usize
    ensures { Put out.old out.new at result
        (ascii "," ++ (integer z ++ (ascii "," ++ (unit.now ++ ascii "\n")))) }
{
    let a = put_byte(out, at, b',');
    let b = put_integer(out, a, z);
    let c = put_byte(out, b, b',');
    let d = put_bytes(out, c, unit);
    put_byte(out, d, b'\n')
}

// The line of an entry.
pub fn put_line(
    out: &mut [u8],
    at: usize,
    name: &[u8],
    unit: &[u8],
    origin: bool,
    year: bool,
    i: usize,
    y: usize,
    z: i64,
) -> usize
    ensures { Put out.old out.new at result (csv_line name.now unit.now origin year i y z) }
{
    let a = put_years(out, at, name, origin, year, i, y);
    put_value(out, a, z, unit)
}

// A row: n entries from place p of the list on, of the years from y on.
fn put_row(
    out: &mut [u8],
    at: usize,
    list: &[i64; MOST_ENTRIES],
    name: &[u8],
    unit: &[u8],
    origin: bool,
    year: bool,
    i: usize,
    y: usize,
    n: usize,
    p: usize,
) -> usize
    requires { (y ≤ 16) × (p + n ≤ most_entries) }
    ensures { Put out.old out.new at result (csv_row list.now name.now unit.now origin year i y n p) }
{
    let mut end = at;
    for j in 0..n {
        end = put_line(out, end, name, unit, origin, year, i, y + j, list[p + j]);
    }
    end
}

// A section: the entries from place p of the list on.
pub fn put_section(
    out: &mut [u8],
    at: usize,
    list: &[i64; MOST_ENTRIES],
    name: &[u8],
    unit: &[u8],
    shape: Shape,
    p: usize,
) -> usize
    requires { (shape.n ≤ 16) × ((shape.rows.blank ≤ 16) × ((shape.rows.up ≤ 1) × (p + entries_in shape.n shape.rows ≤ most_entries))) }
    ensures { Put out.old out.new at result (csv_section list.now name.now unit.now shape p) }
{
    let mut end = at;
    let n = shape.n;
    let mut row = shape.rows;
    let mut from = p;
    for i in 0..n {
        end = put_row(
            out,
            end,
            list,
            name,
            unit,
            shape.origin,
            shape.year,
            i,
            row.blank,
            row.count,
            from,
        );
        from += row.count;
        row = next_row(row);
    }
    end
}

// The line of a number beside the list, of no year.
pub fn put_beside(out: &mut [u8], at: usize, name: &[u8], unit: &[u8], n: u64) -> usize
    ensures { Put out.old out.new at result (csv_beside name.now unit.now n) }
{
    let a = put_bytes(out, at, name);
    let b = put_bytes(out, a, b",,,");
    let c = put_decimal(out, b, n);
    let d = put_byte(out, c, b',');
    let e = put_bytes(out, d, unit);
    put_byte(out, e, b'\n')
}
