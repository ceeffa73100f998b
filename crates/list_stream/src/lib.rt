// Many records of one valuation year in one stream, each behind its length in two bytes, the high one first: the row of each goes into a lent buffer.
#![tactic(auto)]

ghost use Rattle.std.specs.Prelude.{◌≡◌, ℕ, ◌+◌, ◌<◌, ◌≤◌, length, get_or, take, drop};
ghost use Rattle.composing.specs.Text.{Put};
ghost use Rattle.list_runs.specs.Runs.{list_row};
ghost use Rattle.list_stream.specs.Stream.{whole_at, RowsPut};

use list_runs::put_list_row;
use valuation::pair_at;

// The most bytes of a row.
const MOST_ROW: usize = 11_110;

// How many records were taken, the place after them, and the place after their rows.
#[derive(Clone, Copy)]
pub struct Taken {
    pub count: usize,
    pub from: usize,
    pub end: usize,
}

// Whether a whole record stands at place p.
#[tactic(auto, using(crate::proofs::RowsTaken::no_length, crate::proofs::RowsTaken::some_length))]
fn has_whole(s: &[u8], p: usize) -> bool
    requires { p ≤ length s.now }
    ensures { result ≡ whole_at s.now p }
{
    let left = s.len() - p;
    left >= 2 && pair_at(s, p) <= left - 2
}

// The row of the whole record at place p.
fn put_record(out: &mut [u8], at: usize, year: u64, s: &[u8], p: usize, n: usize) -> usize
    requires { p + 2 + n ≤ length s.now }
    ensures { Put out.old out.new at result (list_row year (take n (drop (p + 2) s.now))) }
{
    let from = p + 2;
    let to = from + n;
    put_list_row(out, at, year, &s[from..to])
}

// Takes the whole records at the front of the stream as long as the buffer has room for one row more, and puts their rows into it from the start on.
pub fn put_rows(year: u64, s: &[u8], out: &mut [u8]) -> Taken
    ensures { RowsPut year s.now out.old out.new result.count result.from result.end }
{
    let room = out.len();
    let mut count: usize = 0;
    let mut from: usize = 0;
    let mut end: usize = 0;
    while room - end >= MOST_ROW {
        if !has_whole(s, from) {
            return Taken { count, from, end };
        }
        let n = pair_at(s, from);
        end = put_record(out, end, year, s, from, n);
        from = from + 2 + n;
        count += 1;
    }
    Taken { count, from, end }
}

// The bytes from place `from` up to place `to` move to the start; those past their new places stay.
pub fn move_down(s: &mut [u8], from: usize, to: usize)
    requires { (from ≤ to) × (to ≤ length s.old) }
    ensures { ((j : ℕ) → from + j < to → get_or s.new j 0 ≡ get_or s.old (from + j) 0)
        × ((j : ℕ) → to ≤ from + j → get_or s.new j 0 ≡ get_or s.old j 0) }
{
    s.copy_within(from..to, 0);
}
