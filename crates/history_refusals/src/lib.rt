// The refused positions of a history, in a lent buffer.
#![tactic(auto)]

ghost use Rattle.std.specs.Prelude.{◌≡◌, ◌||◌, ◌++◌, ◌+◌, ◌≤◌};
ghost use Rattle.rules.specs.Lists.{between};
ghost use Rattle.rules.specs.History.{most_history, most_width};
ghost use Rattle.composing.specs.Text.{Put};
ghost use Rattle.history_refusals.specs.Refusals.{some_number, number_text, number_line, refusals, refusal_section};

use composing::{put_bytes, put_decimal};
use history_places::number_of;
use parts::{put_either, put_only, put_section_end, put_section_start};
use rules::MOST_HISTORY_ENTRIES;
use wording::put_question;

// Whether a number from least to most was found before, or x is one.
pub fn found_or(found: bool, x: u64, least: u64, most: u64) -> bool
    ensures { result ≡ (found || between least most x) }
{
    found || (least <= x && x <= most)
}

// Whether one of the first n positions has a number from least to most.
fn some_number(
    list: &[i64; MOST_HISTORY_ENTRIES],
    width: usize,
    least: u64,
    most: u64,
    n: usize,
) -> bool
    requires { (n + width ≤ most_history + 1) × (width ≤ most_width) }
    ensures { result ≡ some_number list.now width least most n }
{
    let mut found = false;
    for a in 0..n {
        found = found_or(found, number_of(list, width, a), least, most);
    }
    found
}

// What number q means.
pub fn put_number_text(out: &mut [u8], at: usize, html: bool, q: u64) -> usize
    ensures { Put out.old out.new at result (number_text html q) }
{
    let a = put_only(out, at, html, b"<p>");
    let b = put_bytes(out, a, b"Refused by question ");
    let c = put_decimal(out, b, q);
    let d = put_bytes(out, c, b": ");
    let e = put_question(out, d, q);
    put_either(out, e, html, b".</p>\n", b".\n")
}

// Where it occurs among n positions.
fn put_number_line(
    out: &mut [u8],
    at: usize,
    html: bool,
    list: &[i64; MOST_HISTORY_ENTRIES],
    width: usize,
    n: usize,
    q: u64,
) -> usize
    requires { (n + width ≤ most_history + 1) × (width ≤ most_width) }
    ensures { Put out.old out.new at result (number_line html list.now width n q) }
{
    if some_number(list, width, q, q, n) {
        put_number_text(out, at, html, q)
    } else {
        at
    }
}

// The lines of 7 to 10.
fn put_number_lines(
    out: &mut [u8],
    at: usize,
    html: bool,
    list: &[i64; MOST_HISTORY_ENTRIES],
    width: usize,
    n: usize,
) -> usize
    requires { (n + width ≤ most_history + 1) × (width ≤ most_width) }
    ensures { Put out.old out.new at result
        (number_line html list.now width n 7 ++ (number_line html list.now width n 8 ++ (number_line html list.now width n 9 ++ number_line html list.now width n 10))) }
{
    let a = put_number_line(out, at, html, list, width, n, 7);
    let b = put_number_line(out, a, html, list, width, n, 8);
    let c = put_number_line(out, b, html, list, width, n, 9);
    put_number_line(out, c, html, list, width, n, 10)
}

// The section, where a position is refused at all.
pub fn put_refusal_section(
    out: &mut [u8],
    at: usize,
    html: bool,
    list: &[i64; MOST_HISTORY_ENTRIES],
    width: usize,
    n: usize,
) -> usize
    requires { (n + width ≤ most_history + 1) × (width ≤ most_width) }
    ensures { Put out.old out.new at result (refusal_section html list.now width n) }
{
    if some_number(list, width, 7, 10, n) {
        let a = put_section_start(out, at, html, b"Refused positions");
        let b = put_number_lines(out, a, html, list, width, n);
        put_section_end(out, b, html)
    } else {
        at
    }
}
