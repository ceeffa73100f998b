// What is wrong with a line of inflation, in words.
#![tactic(auto)]

ghost use Rattle.std.specs.Prelude.{◌≤◌};
ghost use Rattle.composing.specs.Text.{Put, decimal};
ghost use Rattle.sheet.specs.Sheet.{lines};
ghost use Rattle.sheet_wording.specs.Problem.{named};
ghost use Rattle.inflation_wording.specs.FaultWords.{shape_name, shown_cell, number_due, number_start, number_words, count_words, fault_words, fault_front, fault_line};

use cells::cell_at;
use composing::{put_bytes, put_decimal};
use inflation_asking::{line_wanted, lines_before, year_asked};
use inflation_line::{Fault, shape_at};
use sheet_wording::{put_cell, put_count, put_named};

// The name of the shape at a place.
fn put_shape(out: &mut [u8], at: usize, place: usize) -> usize
    ensures { Put out.old out.new at result (named (shape_name place)) }
{
    put_named(out, at, cell_at(b"shapes flat fading shock", place))
}

// A cell of the line, up to its 20th byte.
fn put_shown(out: &mut [u8], at: usize, line: &[u8], n: usize) -> usize
    ensures { Put out.old out.new at result (shown_cell line.now n) }
{
    let cell = cell_at(line, n);
    if cell.len() > 20 {
        return put_cell(out, at, &cell[..20]);
    }
    put_cell(out, at, cell)
}

// What is due in the place of number n.
fn put_due(out: &mut [u8], at: usize, asked: bool, years: u64, n: u64) -> usize
    ensures { Put out.old out.new at result (number_due asked years n) }
{
    if n == 3 {
        let end = put_bytes(out, at, b"a year from 1 to ");
        return put_decimal(out, end, years);
    }
    if asked {
        return put_bytes(out, at, b"a rate from -0.5 to 1.0");
    }
    put_bytes(out, at, b"a decimal of at most 15 digits or 16 hex digits")
}

// Number n of the line.
fn put_number_start(out: &mut [u8], at: usize, line: &[u8], n: u64) -> usize
    ensures { Put out.old out.new at result (number_start line.now n) }
{
    let number = put_bytes(out, at, b"number ");
    let of = put_decimal(out, number, n);
    let name = put_bytes(out, of, b" of ");
    let is = put_shape(out, name, shape_at(line));
    let cell = put_bytes(out, is, b" is ");
    let and = put_shown(out, cell, line, n as usize);
    put_bytes(out, and, b", and ")
}

// The same, and what is due.
fn put_number(out: &mut [u8], at: usize, asked: bool, years: u64, line: &[u8], n: u64) -> usize
    ensures { Put out.old out.new at result (number_words asked years line.now n) }
{
    let due = put_number_start(out, at, line, n);
    let end = put_due(out, due, asked, years, n);
    put_bytes(out, end, b" is due")
}

// How many numbers the shape at a place takes, and how many stand there.
fn put_counts(out: &mut [u8], at: usize, place: usize, n: u64) -> usize
    requires { place ≤ 3 }
    ensures { Put out.old out.new at result (count_words place n) }
{
    let name = put_shape(out, at, place);
    let takes = put_bytes(out, name, b" takes ");
    let stand = put_count(out, takes, place + 1, b" number, and ", b" numbers, and ");
    put_count(out, stand, n as usize, b" stands there", b" stand there")
}

// The words of a fault, for this many years.
fn put_words(out: &mut [u8], at: usize, years: u64, line: &[u8], f: Fault) -> usize
    ensures { Put out.old out.new at result (fault_words years line.now f.kind f.about) }
{
    if f.kind == 1 {
        let end = put_bytes(
            out,
            at,
            b"`flat`, `fading` or `shock` is due after `inflation`, not ",
        );
        return put_shown(out, end, line, 0);
    }
    if f.kind == 2 {
        return put_counts(out, at, shape_at(line), f.about);
    }
    if f.kind == 3 {
        return put_number(out, at, false, years, line, f.about);
    }
    if f.kind == 20 {
        return put_number(out, at, true, years, line, f.about);
    }
    let year = put_bytes(out, at, b"the index of year ");
    let end = put_decimal(out, year, f.about);
    put_bytes(out, end, b" leaves 1 to 5,000,000")
}

// The refusal in front, where it is one.
fn put_front(out: &mut [u8], at: usize, kind: u64) -> usize
    ensures { Put out.old out.new at result (fault_front kind) }
{
    if kind < 20 {
        return at;
    }
    let number = put_bytes(out, at, b"refused ");
    let end = put_decimal(out, number, kind);
    put_bytes(out, end, b": ")
}

// A line of words for the line of inflation of a text, whose mark is taken off before.
pub fn put_fault(out: &mut [u8], at: usize, text: &[u8], f: Fault) -> usize
    ensures { Put out.old out.new at result (fault_line (lines text.now) f) }
{
    let front = put_front(out, at, f.kind);
    let number = put_bytes(out, front, b"line ");
    let n = lines_before(true, text);
    let colon = put_decimal(out, number, n as u64 + 1);
    let words = put_bytes(out, colon, b": ");
    let years = year_asked(text) + 1;
    let end = put_words(out, words, years, line_wanted(true, text), f);
    put_bytes(out, end, b"\n")
}
