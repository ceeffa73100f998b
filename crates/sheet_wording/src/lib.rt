// What is wrong with a text of figures, in words.
#![tactic(auto)]

ghost use Rattle.std.specs.Prelude.{cond, [], ◌++◌, eqb, get_or};
ghost use Rattle.composing.specs.Text.{Put, decimal};
ghost use Rattle.sheet.specs.Table.{label_due};
ghost use Rattle.sheet_wording.specs.Problem.{named, or_inflation, cell_text, range_text, number_text, count_text, problem_words, problem_line};

use composing::{put_bytes, put_decimal};
use sheet::{Due, put_label};
use signed_text::put_integer;

// A word of the text.
pub fn put_named(out: &mut [u8], at: usize, word: &[u8]) -> usize
    ensures { Put out.old out.new at result (named word.now) }
{
    let start = put_bytes(out, at, b"`");
    let end = put_bytes(out, start, word);
    put_bytes(out, end, b"`")
}

// The label of the line due, between two texts.
fn put_due(out: &mut [u8], at: usize, before: &[u8], d: Due, after: &[u8]) -> usize
    ensures { Put out.old out.new at result (before.now ++ (named (label_due d) ++ after.now)) }
{
    let quote = put_bytes(out, at, before);
    let label = put_bytes(out, quote, b"`");
    let close = put_label(out, label, d.row);
    let end = put_bytes(out, close, b"`");
    put_bytes(out, end, after)
}

// The same, with a line of inflation where it may stand for the one due.
fn put_due_line(out: &mut [u8], at: usize, before: &[u8], d: Due, after: &[u8]) -> usize
    ensures { Put out.old out.new at result (before.now ++ (named (label_due d) ++ (or_inflation d ++ after.now))) }
{
    if d.row == 3 {
        let end = put_due(out, at, before, d, b" or `inflation`");
        return put_bytes(out, end, after);
    }
    put_due(out, at, before, d, after)
}

// A cell, which may be empty.
pub fn put_cell(out: &mut [u8], at: usize, word: &[u8]) -> usize
    ensures { Put out.old out.new at result (cell_text word.now) }
{
    if word.len() == 0 {
        return put_bytes(out, at, b"an empty cell");
    }
    put_named(out, at, word)
}

// What each number of a line may be.
fn put_range(out: &mut [u8], at: usize, d: Due) -> usize
    ensures { Put out.old out.new at result (range_text d) }
{
    let least = put_bytes(out, at, b", and a whole number from ");
    let to = put_integer(out, least, d.least);
    let most = put_bytes(out, to, b" to ");
    let end = put_integer(out, most, d.most);
    put_bytes(out, end, b" is due")
}

// A number of a line.
fn put_number(out: &mut [u8], at: usize, d: Due, cell: usize, word: &[u8]) -> usize
    ensures { Put out.old out.new at result (number_text d cell word.now) }
{
    let number = put_bytes(out, at, b"number ");
    let of = put_decimal(out, number, cell as u64);
    let is = put_due(out, of, b" of ", d, b" is ");
    let range = put_cell(out, is, word);
    put_range(out, range, d)
}

// A count, with words for one and for others.
pub fn put_count(out: &mut [u8], at: usize, n: usize, one: &[u8], others: &[u8]) -> usize
    ensures { Put out.old out.new at result (decimal n ++ cond (eqb n 1) one.now others.now) }
{
    let end = put_decimal(out, at, n as u64);
    if n == 1 {
        return put_bytes(out, end, one);
    }
    put_bytes(out, end, others)
}

// How many numbers a line takes, and how many stand there.
fn put_counts(out: &mut [u8], at: usize, d: Due, cell: usize) -> usize
    ensures { Put out.old out.new at result (count_text d cell) }
{
    let takes = put_due(out, at, b"", d, b" takes ");
    let stand = put_count(out, takes, d.count, b" number, and ", b" numbers, and ");
    put_count(out, stand, cell, b" stands there", b" stand there")
}

// The words of a problem.
fn put_words(out: &mut [u8], at: usize, problem: u64, d: Due, cell: usize, word: &[u8]) -> usize
    ensures { Put out.old out.new at result (get_or (problem_words d cell word.now) problem []) }
{
    match problem {
        1 => {
            let name = put_due_line(
                out,
                at,
                b"a line that starts with ",
                d,
                b" is due, not with ",
            );
            put_named(out, name, word)
        }
        2 => put_number(out, at, d, cell, word),
        3 => put_counts(out, at, d, cell),
        4 => put_number(out, at, d, cell, word),
        5 => put_due_line(out, at, b"the text ends where ", d, b" is due"),
        6 => {
            let end = put_named(out, at, word);
            put_bytes(
                out,
                end,
                b" stands where the text should end: there is more than the figures call for",
            )
        }
        _ => at,
    }
}

// A line of words for a problem in a line of the text.
pub fn put_problem(
    out: &mut [u8],
    at: usize,
    problem: u64,
    line: usize,
    d: Due,
    cell: usize,
    word: &[u8],
) -> usize
    ensures { Put out.old out.new at result (problem_line problem line d cell word.now) }
{
    let number = put_bytes(out, at, b"line ");
    let colon = put_decimal(out, number, line as u64);
    let words = put_bytes(out, colon, b": ");
    let end = put_words(out, words, problem, d, cell, word);
    put_bytes(out, end, b"\n")
}
