// The fields of a record as text: labelled lines, the increments of each origin year in a line of their own.
#![tactic(auto)]

ghost use Rattle.std.specs.Prelude.{◌≡◌, ◌+◌, ◌<◌, ◌≤◌, eqb, length, take, drop, is_ok};
ghost use Rattle.rules.specs.Record.{most_fields};
ghost use Rattle.rules.specs.Reading.{read_answer_of};
ghost use Rattle.composing.specs.Text.{Put};
ghost use Rattle.sheet.specs.Sheet.{spaced, line_of, last_year_in, sheet_of};
ghost use Rattle.sheet_writing.specs.Shown.{shown_text, answer_in, end_in};

use composing::put_byte;
use entries::size_of;
use reader::doonamurk_read;
use rules::{ACCEPTED, MOST_FIELDS};
use sheet::{Due, due_at, put_label};
use signed_text::put_integer;

// Each of n numbers of the list, from place `from` on, after a space.
fn put_numbers(out: &mut [u8], at: usize, list: &[i64], from: usize, n: usize) -> usize
    requires { from + n ≤ length list.now }
    ensures { Put out.old out.new at result (spaced (take n (drop from list.now))) }
{
    let mut end = at;
    for z in &list[from..from + n] {
        let number = put_byte(out, end, b' ');
        end = put_integer(out, number, *z);
    }
    end
}

// A line that is due, with the numbers of the list from place `from` on.
fn put_line(out: &mut [u8], at: usize, d: Due, list: &[i64], from: usize) -> usize
    requires { from + d.count ≤ length list.now }
    ensures { Put out.old out.new at result (line_of d (take d.count (drop from list.now))) }
{
    let numbers = put_label(out, at, d.row);
    let end = put_numbers(out, numbers, list, from, d.count);
    put_byte(out, end, b'\n')
}

// The fields of a record, first in the list, as text.
pub fn put_sheet(out: &mut [u8], list: &[i64; MOST_FIELDS]) -> usize
    requires { last_year_in list.now < 16 }
    ensures { Put out.old out.new 0 result (sheet_of list.now) }
{
    let k = size_of(list[0]) as usize;
    let n = k + 8;
    let mut end: usize = 0;
    let mut from: usize = 0;
    for i in 0..n {
        let d = due_at(k, i);
        end = put_line(out, end, d, list, from);
        from += d.count;
    }
    end
}

// Puts the fields of a record as text into the buffer and answers where it ends, or leaves the buffer; the error is the number of the reader's question.
#[tactic(auto, using(crate::proofs::Unpacked::none_shown))]
pub fn unpack(packed: &[u8], out: &mut [u8]) -> Result<usize, u64>
    ensures { (is_ok result ≡ eqb (read_answer_of packed.now most_fields) 0)
        × ((answer_in result ≡ read_answer_of packed.now most_fields)
        × Put out.old out.new 0 (end_in result) (shown_text packed.now)) }
{
    let mut list = [0i64; MOST_FIELDS];
    let answer = doonamurk_read(packed, &mut list);
    if answer != ACCEPTED {
        return Err(answer);
    }
    Ok(put_sheet(out, &list))
}
