// What is wrong with a text, of a history or of figures, in words, with the refusal in front where there is one.
#![tactic(auto)]

ghost use Rattle.std.specs.Prelude.{◌≡◌, ◌++◌, ◌≤◌, length, take};
ghost use Rattle.composing.specs.Text.{Put};
ghost use Rattle.sheet.specs.Table.{due_in, most_first};
ghost use Rattle.sheet.specs.Sheet.{last_year_in};
ghost use Rattle.sheet_wording.specs.Problem.{problem_line};
ghost use Rattle.history_wording.specs.Refused.{refusal_at, refused_front, problem_front};

use composing::{put_bytes, put_decimal};
use history_sheet::due_in;
use line_reading::last_year;
use sheet::Found;
use sheet_wording::put_problem;

// The refusal where a number of the line due at a place is out of its range.
#[tactic(auto, unfolding(crate::specs::Refused::refusal_at))]
fn refusal_at(history: bool, place: usize) -> u64
    ensures { result ≡ refusal_at history place }
{
    if history {
        return if place < 2 { 27 } else { 28 };
    }
    if place == 0 { 1 } else { 4 }
}

// A refusal in front.
fn put_front(out: &mut [u8], n: u64) -> usize
    ensures { Put out.old out.new 0 result (refused_front n) }
{
    let number = put_bytes(out, 0, b"refused ");
    let colon = put_decimal(out, number, n);
    put_bytes(out, colon, b": ")
}

// That of a problem at a place.
fn put_refused(out: &mut [u8], history: bool, problem: u64, place: usize) -> usize
    ensures { Put out.old out.new 0 result (problem_front history problem place) }
{
    if problem != 4 {
        return 0;
    }
    put_front(out, refusal_at(history, place))
}

// What was found wrong, in words.
pub fn put_wrong(out: &mut [u8], history: bool, f: Found, list: &[i64], word: &[u8]) -> usize
    requires { (f.count ≤ length list.now) × ((last_year_in (take f.count list.now) ≤ most_first history) × (f.word ≤ length word.now)) }
    ensures { Put out.old out.new 0 result
        (problem_front history f.problem f.place
        ++ problem_line f.problem f.line (due_in history (last_year_in (take f.count list.now)) f.place) f.cell (take f.word word.now)) }
{
    let n = last_year(list, f.count) as usize;
    let d = due_in(history, n, f.place);
    let at = put_refused(out, history, f.problem, f.place);
    let size = f.word;
    put_problem(out, at, f.problem, f.line, d, f.cell, &word[..size])
}
