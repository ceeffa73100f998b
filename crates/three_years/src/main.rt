// Document 01's case of three years: k = 2, n 100 each, cells 0, 5000, 999999 / 0, 0 / 1. Question 13 refuses its record before it is separated, so here its averages, which in
// hundredths are those same numbers, are separated by themselves: whether A_1 is 1000, A_0 is 0, l_1 is too large, that is above S, and the answer is 9. Writes a line
// for each figure, and then how many are as printed.
#![tactic(auto)]

ghost use Rattle.std.specs.Prelude.{◌≤◌, ◌<◌, ◌≡◌, ◌∷◌, pos, replicate};
ghost use Rattle.rules.specs.Separation.{billion};
ghost use Rattle.totals.specs.CellSizes.{Cells};

use printing::{put_number, put_text};
use rules::BILLION;
use separation::{separate, walk};
use totals::fill_totals;

// The latest year, k.
const LATEST: usize = 2;
// Two running shares, a level and an answer.
const FIGURES: u64 = 4;

// A row of averages that begins with these three, and zeros after them.
fn row(first: i64, second: i64, third: i64) -> [i64; 16]
    ensures { result ≡ first ∷ second ∷ third ∷ replicate 13 (pos 0) }
{
    let mut cells = [0i64; 16];
    cells[0] = first;
    cells[1] = second;
    cells[2] = third;
    cells
}

// The averages of the case.
fn averages() -> [[i64; 16]; 16]
    ensures { Cells result }
{
    let mut square = [[0i64; 16]; 16];
    square[0] = row(0, 5000, 999_999);
    square[1] = row(0, 0, 0);
    square[2] = row(1, 0, 0);
    square
}

// The share of year h, none above S.
fn share(shares: &[u64; 16], h: usize) -> u64
    requires { h < 16 }
    ensures { result ≤ billion }
{
    shares[h].min(BILLION)
}

// Ends the line of a figure; 1 where it is as printed, and 0 where it differs.
fn put_verdict(rt: &HostRuntime, same: bool) -> u64
    ensures { result ≤ 1 }
{
    if same {
        put_text(rt, b" as printed\n");
        return 1;
    }
    put_text(rt, b" differs\n");
    0
}

// The line of a figure that is printed itself.
fn compare(rt: &HostRuntime, name: &[u8], figure: u64, printed: u64) -> u64
    ensures { result ≤ 1 }
{
    put_text(rt, name);
    put_number(rt, figure);
    put_verdict(rt, figure == printed)
}

// The line of a level of which it is printed that it is too large.
fn compare_too_large(rt: &HostRuntime, name: &[u8], level: u64) -> u64
    ensures { result ≤ 1 }
{
    put_text(rt, name);
    put_number(rt, level);
    put_text(rt, b" too large");
    put_verdict(rt, level > BILLION)
}

// How many of these factors' figures are as printed. A running share is the sum of the shares up to its year.
fn compare_factors<'a>(rt: &HostRuntime, shares: &'a [u64; 16], levels: &'a [u64; 16]) -> u64
    ensures { result ≤ 3 }
{
    let earliest = share(shares, 0);
    let running = earliest + share(shares, 1);
    compare(rt, b"running share 1 ", running, 1000)
        + compare(rt, b"running share 0 ", earliest, 0)
        + compare_too_large(rt, b"level 1 ", levels[1])
}

// How many figures of the walk over a square's totals are as printed.
fn compare_walk(rt: &HostRuntime, square: &[[i64; 16]; 16]) -> u64
    requires { Cells square.now }
    ensures { result ≤ 3 }
{
    let mut columns = [0i64; 16];
    let mut diagonals = [0i64; 16];
    fill_totals(square, 0, LATEST, &mut columns, &mut diagonals);
    let f = walk(&columns, &diagonals, LATEST);
    compare_factors(rt, &f.shares, &f.levels)
}

fn main(rt: HostRuntime) {
    let square = averages();
    let walked = compare_walk(&rt, &square);
    let separation = separate(&square, 0, LATEST);
    let same = walked + compare(&rt, b"refused ", separation.answer, 9);
    put_number(&rt, same);
    put_text(&rt, b" of ");
    put_number(&rt, FIGURES);
    put_text(&rt, b" as printed\n");
}
