// Taylor's motor account (document 004, example 1), whose record, in tenths, is read from standard input behind a valuation year: whether the shares, the levels and the
// fitted run-off triangle that come of it are those that he prints, to his digits. Writes a line for each figure, and then how many are as printed.
// The account's cut to three years is not compared.
#![tactic(auto)]

ghost use Rattle.std.specs.Prelude.{◌+◌, ◌≤◌, ◌<◌};
ghost use Rattle.rules.specs.Separation.{billion};
ghost use Rattle.rules.specs.Results.{most_entries};

use engine::doonamurk_run;
use entries::size_of;
use printing::{put_number, put_text, read_full};
use rules::{BILLION, MOST_ENTRIES};
use valuation::{record_start, year_of};

// Four shares, four levels and ten cells.
const FIGURES: u64 = 18;
// One in the last printed digit of a share, in billionths.
const SHARE_DIGIT: u64 = 100_000;
// One in the last printed digit of a level, in thousandths: a level counts hundredths, and the account is in tenths.
const LEVEL_DIGIT: u64 = 100;
// One in the last printed digit of a cell, in billionths of a thousandth.
const CELL_DIGIT: u64 = 100_000_000_000;

// The factor at this place of the result list, none above S.
fn entry(list: &[i64; MOST_ENTRIES], at: usize) -> u64
    requires { at < most_entries }
    ensures { result ≤ billion }
{
    size_of(list[at]).min(BILLION)
}

// amount / unit to the nearest whole, halves up.
fn nearest(amount: u64, unit: u64) -> u64
    requires { (amount ≤ 1000000000000000000) × ((1 ≤ unit) × (unit ≤ 100000000000)) }
{
    (2 * amount + unit) / (2 * unit)
}

// Ends the line of a figure; 1 where it is as printed, and 0 where it differs.
fn compare(rt: &HostRuntime, figure: u64, printed: u64) -> u64
    ensures { result ≤ 1 }
{
    put_text(rt, b" ");
    put_number(rt, figure);
    if figure == printed {
        put_text(rt, b" as printed\n");
        return 1;
    }
    put_text(rt, b" differs\n");
    0
}

// How many of the four factors of this name, from this place of the list on, are as printed.
fn compare_factors(
    rt: &HostRuntime,
    name: &[u8],
    list: &[i64; MOST_ENTRIES],
    from: usize,
    digit: u64,
    printed: &[u64; 4],
) -> u64
    requires { (from ≤ 100) × ((1 ≤ digit) × (digit ≤ 100000000000)) }
    ensures { result ≤ 4 }
{
    let mut same: u64 = 0;
    for (h, figure) in printed.iter().enumerate() {
        put_text(rt, name);
        put_number(rt, h as u64);
        same += compare(rt, nearest(entry(list, from + h), digit), *figure);
    }
    same
}

// The fitted cell in row i and column j: its column's share of its diagonal's level.
fn fitted(list: &[i64; MOST_ENTRIES], shares: usize, levels: usize, i: usize, j: usize) -> u64
    requires { (shares ≤ 100) × ((levels ≤ 100) × (i + j < 16)) }
{
    nearest(
        entry(list, shares + j) * entry(list, levels + i + j),
        CELL_DIGIT,
    )
}

// Begins the line of the cell in row i and column j.
fn put_cell(rt: &HostRuntime, i: usize, j: usize) {
    put_text(rt, b"cell ");
    put_number(rt, i as u64);
    put_text(rt, b" ");
    put_number(rt, j as u64);
}

// How many of the fitted cells of row i are as printed.
fn compare_row(
    rt: &HostRuntime,
    list: &[i64; MOST_ENTRIES],
    shares: usize,
    levels: usize,
    i: usize,
    printed: &[u64; 4],
) -> u64
    requires { (shares ≤ 100) × ((levels ≤ 100) × (i < 4)) }
    ensures { result ≤ 4 }
{
    let mut same: u64 = 0;
    for (j, figure) in printed[..4 - i].iter().enumerate() {
        put_cell(rt, i, j);
        same += compare(rt, fitted(list, shares, levels, i, j), *figure);
    }
    same
}

// Compares the shares in ten-thousandths, the levels in tenths and the cells in tenths.
fn compare_all(rt: &HostRuntime, list: &[i64; MOST_ENTRIES], shares: usize, levels: usize)
    requires { (shares ≤ 100) × (levels ≤ 100) }
{
    let same = compare_factors(
        rt,
        b"share ",
        list,
        shares,
        SHARE_DIGIT,
        &[5835, 2878, 866, 421],
    ) + compare_factors(
        rt,
        b"level ",
        list,
        levels,
        LEVEL_DIGIT,
        &[864, 989, 1020, 1139],
    ) + compare_row(rt, list, shares, levels, 0, &[504, 285, 88, 48])
        + compare_row(rt, list, shares, levels, 1, &[577, 294, 99, 0])
        + compare_row(rt, list, shares, levels, 2, &[595, 328, 0, 0])
        + compare_row(rt, list, shares, levels, 3, &[665, 0, 0, 0]);
    put_number(rt, same);
    put_text(rt, b" of ");
    put_number(rt, FIGURES);
    put_text(rt, b" as printed\n");
}

// The places of the shares and the levels in the list of four years.
const SHARES: usize = 10;

const LEVELS: usize = 14;

// The engine's answer to an input, a valuation year and a record.
fn run(input: &[u8], list: &mut [i64]) -> u64 {
    let from = record_start(input);
    doonamurk_run(year_of(input), &input[from..], list)
}

fn main(rt: HostRuntime) {
    let mut buffer = [0u8; 4096];
    let n = read_full(&rt, &mut buffer);
    let mut list = [0i64; MOST_ENTRIES];
    let answer = run(&buffer[..n], &mut list);
    if answer == 0 {
        compare_all(&rt, &list, SHARES, LEVELS);
    } else {
        put_text(&rt, b"refused ");
        put_number(&rt, answer);
        put_text(&rt, b"\n");
    }
}
