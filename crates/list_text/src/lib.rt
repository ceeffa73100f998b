// A result list as text: its entries one a line or all on one line, or `refused` and the number. Each function puts its text from a place on, as far as
// the buffer goes, and answers the place after it.
#![tactic(auto)]

ghost use Rattle.std.specs.Prelude.{◌≡◌, ◌≤◌, ◌<◌, length, take};
ghost use Rattle.composing.specs.Text.{Put};
ghost use Rattle.list_text.specs.EntryLines.{after, entry_text, entries_by, entries_text, row_text, refused_text};

use composing::{put_byte, put_bytes, put_decimal};
use signed_text::put_integer;

// The byte after entry i of n.
#[tactic(auto, unfolding(crate::specs::EntryLines::after))]
fn after_entry(between: u8, n: usize, i: usize) -> u8
    requires { i < n }
    ensures { result ≡ after between n i }
{
    if i + 1 == n { b'\n' } else { between }
}

// An entry and the byte after it.
fn put_entry(out: &mut [u8], at: usize, z: i64, next: u8) -> usize
    ensures { Put out.old out.new at result (entry_text z next) }
{
    let end = put_integer(out, at, z);
    put_byte(out, end, next)
}

// The first n entries of a list, with a byte between them and a line feed after the last.
pub fn put_separated(out: &mut [u8], at: usize, list: &[i64], n: usize, between: u8) -> usize
    requires { n ≤ length list.now }
    ensures { Put out.old out.new at result (entries_by between (take n list.now)) }
{
    let mut end = at;
    for i in 0..n {
        end = put_entry(out, end, list[i], after_entry(between, n, i));
    }
    end
}

// The first n entries, one a line.
pub fn put_entries(out: &mut [u8], at: usize, list: &[i64], n: usize) -> usize
    requires { n ≤ length list.now }
    ensures { Put out.old out.new at result (entries_text (take n list.now)) }
{
    put_separated(out, at, list, n, b'\n')
}

// The first n entries on one line.
pub fn put_row(out: &mut [u8], at: usize, list: &[i64], n: usize) -> usize
    requires { n ≤ length list.now }
    ensures { Put out.old out.new at result (row_text (take n list.now)) }
{
    put_separated(out, at, list, n, b' ')
}

// The answer of a call that refused.
pub fn put_refused(out: &mut [u8], at: usize, n: u64) -> usize
    ensures { Put out.old out.new at result (refused_text n) }
{
    let a = put_bytes(out, at, b"refused ");
    let b = put_decimal(out, a, n);
    put_byte(out, b, b'\n')
}
