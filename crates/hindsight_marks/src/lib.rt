// The marked steps of a hindsight run, in a lent buffer.
#![tactic(auto)]

ghost use Rattle.std.specs.Prelude.{◌≡◌, ◌++◌, ◌<◌};
ghost use Rattle.composing.specs.Text.{Put};
ghost use Rattle.hindsight_places.specs.Places.{LastYear};
ghost use Rattle.hindsight_marks.specs.Marks.{some_mark, some_fitted, mark_line, mark_section};

use hindsight_places::mark_of;
use history_refusals::{found_or, put_number_text};
use parts::{put_section_end, put_section_start};
use rules::MOST_HINDSIGHT;

// Whether one of steps 1 to m has a mark from least to most.
fn some_mark(list: &[i64; MOST_HINDSIGHT], k: usize, least: u64, most: u64, m: usize) -> bool
    requires { LastYear k × (m < k) }
    ensures { result ≡ some_mark list.now k least most m }
{
    let mut found = false;
    for i in 0..m {
        found = found_or(found, mark_of(list, k, i + 1), least, most);
    }
    found
}

// Whether a step is fitted at all.
pub fn some_fitted(list: &[i64; MOST_HINDSIGHT], k: usize) -> bool
    requires { LastYear k }
    ensures { result ≡ some_fitted list.now k }
{
    some_mark(list, k, 0, 0, k - 1)
}

// What number q means, where it occurs.
fn put_mark_line(
    out: &mut [u8],
    at: usize,
    html: bool,
    list: &[i64; MOST_HINDSIGHT],
    k: usize,
    q: u64,
) -> usize
    requires { LastYear k }
    ensures { Put out.old out.new at result (mark_line html list.now k q) }
{
    if some_mark(list, k, q, q, k - 1) {
        put_number_text(out, at, html, q)
    } else {
        at
    }
}

// The lines of 7 to 10.
fn put_mark_lines(
    out: &mut [u8],
    at: usize,
    html: bool,
    list: &[i64; MOST_HINDSIGHT],
    k: usize,
) -> usize
    requires { LastYear k }
    ensures { Put out.old out.new at result
        (mark_line html list.now k 7 ++ (mark_line html list.now k 8 ++ (mark_line html list.now k 9 ++ mark_line html list.now k 10))) }
{
    let a = put_mark_line(out, at, html, list, k, 7);
    let b = put_mark_line(out, a, html, list, k, 8);
    let c = put_mark_line(out, b, html, list, k, 9);
    put_mark_line(out, c, html, list, k, 10)
}

// The section, where a step is marked at all.
pub fn put_mark_section(
    out: &mut [u8],
    at: usize,
    html: bool,
    list: &[i64; MOST_HINDSIGHT],
    k: usize,
) -> usize
    requires { LastYear k }
    ensures { Put out.old out.new at result (mark_section html list.now k) }
{
    if some_mark(list, k, 7, 10, k - 1) {
        let a = put_section_start(out, at, html, b"Marked steps");
        let b = put_mark_lines(out, a, html, list, k);
        put_section_end(out, b, html)
    } else {
        at
    }
}
