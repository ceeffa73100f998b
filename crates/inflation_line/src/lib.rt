// A line of inflation in a text of figures: its rates, or what is wrong with it.
#![tactic(auto)]

ghost use Rattle.std.specs.Prelude.{◌≡◌, ◌≤◌, ◌<◌};
ghost use Rattle.inflation_line.specs.InflationLine.{is_inflation, shape_at, number_passes, is_due, is_asked, passing_numbers, shape_from, shape_of, rates_fault, fault_in};

use cells::{cell_at, cell_count, label_of};
use inflation::{inflation_indices, walk};
use inflation_rates::{lies_between, rate_fits};
use rate_text::{is_rate, rate_of};
use rules::Inflation;
use scanning::{is_natural, same_text, size_from};

// What is wrong with a line of inflation, and the number or the year that it is about.
#[derive(Clone, Copy)]
pub struct Fault {
    pub kind: u64,
    pub about: u64,
}

// Whether a line is one of inflation.
pub fn is_inflation(line: &[u8]) -> bool
    ensures { result ≡ is_inflation line.now }
{
    same_text(label_of(line), b"inflation")
}

// The place of the shape that a line names, 3 where it names none.
pub fn shape_at(line: &[u8]) -> usize
    ensures { (result ≡ shape_at line.now) × (result ≤ 3) }
{
    let name = cell_at(line, 0);
    if same_text(name, b"flat") {
        return 0;
    }
    if same_text(name, b"fading") {
        return 1;
    }
    if same_text(name, b"shock") {
        return 2;
    }
    3
}

// Whether number n is of its form.
fn is_due(n: usize, word: &[u8]) -> bool
    ensures { result ≡ is_due n word.now }
{
    if n == 3 {
        return is_natural(word);
    }
    is_rate(word)
}

// Whether it is one that question 20 says yes to.
fn is_asked(years: u64, n: usize, word: &[u8]) -> bool
    ensures { result ≡ is_asked years n word.now }
{
    if n == 3 {
        return lies_between(1, years, size_from(0, word));
    }
    rate_fits(rate_of(word))
}

// One of the two tests.
fn number_passes(asked: bool, years: u64, n: usize, word: &[u8]) -> bool
    ensures { result ≡ number_passes asked years n word.now }
{
    if asked {
        return is_asked(years, n, word);
    }
    is_due(n, word)
}

// How many of the first m numbers pass it before one does not.
fn passing_numbers(asked: bool, years: u64, line: &[u8], m: usize) -> usize
    requires { m ≤ 4 }
    ensures { (result ≡ passing_numbers asked years line.now m) × (result ≤ m) }
{
    for i in 0..m {
        if !number_passes(asked, years, i + 1, cell_at(line, i + 1)) {
            return i;
        }
    }
    m
}

// The rates in the shape at a place.
fn shape_from(place: usize, rate: f64, other: f64, year: u64) -> Inflation
    ensures { result ≡ shape_from place rate other year }
{
    match place {
        0 => Inflation::Flat(rate),
        1 => Inflation::Fading(rate, other),
        _ => Inflation::Shock(rate, other, year),
    }
}

// The rates of a line.
pub fn shape_of(line: &[u8]) -> Inflation
    ensures { result ≡ shape_of line.now }
{
    let rate = rate_of(cell_at(line, 1));
    let other = rate_of(cell_at(line, 2));
    let year = size_from(0, cell_at(line, 3));
    shape_from(shape_at(line), rate, other, year)
}

// What is wrong with the rates of a line, for this many years.
fn rates_fault(years: u64, line: &[u8]) -> Fault
    ensures { result ≡ rates_fault years line.now }
{
    let made = inflation_indices(shape_of(line), years);
    if made.refused == 20 {
        let good = passing_numbers(true, years, line, shape_at(line) + 1);
        return Fault {
            kind: 20,
            about: good as u64 + 1,
        };
    }
    if made.refused == 21 {
        let mut values = [0u64; 16];
        let within = walk(shape_of(line), years, &mut values);
        return Fault {
            kind: 21,
            about: within + 1,
        };
    }
    Fault { kind: 0, about: 0 }
}

// What is wrong with a line of inflation, for this many years.
pub fn fault_in(years: u64, line: &[u8]) -> Fault
    ensures { result ≡ fault_in years line.now }
{
    let place = shape_at(line);
    if place == 3 {
        return Fault { kind: 1, about: 0 };
    }
    let count = cell_count(line);
    if count != place + 2 {
        return Fault {
            kind: 2,
            about: count as u64 - 1,
        };
    }
    let good = passing_numbers(false, years, line, place + 1);
    if good <= place {
        return Fault {
            kind: 3,
            about: good as u64 + 1,
        };
    }
    rates_fault(years, line)
}
