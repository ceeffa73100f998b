// A line of a text: its content, its label and its cells.
#![tactic(auto)]

ghost use Rattle.std.specs.Prelude.{◌≡◌, [], ◌≤◌, ◌<◌, ◌^◌, length, get_or, drop};
ghost use Rattle.rules.specs.Lists.{every};
ghost use Rattle.scanning.specs.Parts.{fails, before};
ghost use Rattle.cells.specs.Cells.{unreturned, content_of, is_bare, from_label, label_of, after_label, unspaced, trimmed, unquoted, cell_from, cells_of, decider, cells_text, first_cell_of, after_cell, is_within, passes};

use commenting::comment_start;
use scanning::{find, from, is_number, number_of, past, until};
use separating::{does_decide, from_cell, separators_of};

// How many cells pass a test before the first that does not, and whether all do.
#[derive(Clone, Copy)]
pub struct Run {
    pub passed: usize,
    pub all: bool,
}

// A line without a carriage return at its very end.
#[tactic(auto, unfolding(crate::specs::Cells::unreturned))]
fn without_return(line: &[u8]) -> &[u8]
    ensures { result.now ≡ unreturned line.now }
{
    match line {
        [text @ .., b'\r'] => text,
        _ => line,
    }
}

// The content of a line.
#[tactic(auto, unfolding(crate::specs::Cells::content_of))]
pub fn content_of(line: &[u8]) -> &[u8]
    ensures { result.now ≡ content_of line.now }
{
    let text = without_return(line);
    if first_of(from(text, b" \"", false)) == b'#' {
        return &text[..0];
    }
    let e = comment_start(text);
    &text[..e]
}

// Whether there is nothing to read in a line.
pub fn is_bare(line: &[u8]) -> bool
    ensures { result ≡ is_bare line.now }
{
    find(line, b" \t,;\"", false) == line.len()
}

// A line from its label on.
fn from_label(line: &[u8]) -> &[u8]
    ensures { result.now ≡ from_label line.now }
{
    from(line, b" ", false)
}

// The first byte of a text, or 0.
fn first_of(text: &[u8]) -> u8
    ensures { result ≡ get_or text.now 0 0 }
{
    match text {
        [b, ..] => *b,
        _ => 0,
    }
}

// The label of a line.
#[tactic(auto, unfolding(crate::specs::Cells::label_of))]
pub fn label_of(line: &[u8]) -> &[u8]
    ensures { result.now ≡ label_of line.now }
{
    let text = from_label(line);
    if first_of(text) == b'"' {
        return until(after_first(text), b"\"");
    }
    until(text, b" \t,;")
}

// A text without its first byte.
fn after_first(text: &[u8]) -> &[u8]
    ensures { result.now ≡ drop 1 text.now }
{
    match text {
        [_, rest @ ..] => rest,
        _ => text,
    }
}

// What comes right after the label.
#[tactic(auto, unfolding(crate::specs::Cells::after_label))]
fn after_label(line: &[u8]) -> &[u8]
    ensures { result.now ≡ after_label line.now }
{
    let text = from_label(line);
    if first_of(text) == b'"' {
        return past(after_first(text), b"\"");
    }
    from(text, b" \t,;", true)
}

// The byte that decides for a line.
fn decider_of(line: &[u8]) -> u8
    ensures { result ≡ decider line.now }
{
    first_of(after_label(line))
}

// The text of a line's cells.
fn cells_text(line: &[u8]) -> &[u8]
    ensures { result.now ≡ cells_text line.now }
{
    if does_decide(decider_of(line)) {
        return after_first(after_label(line));
    }
    after_label(line)
}

// How many bytes of a text are left without the spaces at its end.
fn unspaced_end(text: &[u8]) -> usize
    ensures { (result ≡ unspaced (length text.now) text.now) × (result ≤ length text.now) }
{
    let mut rest = text;
    while let [front @ .., b' '] = rest {
        rest = front;
    }
    rest.len()
}

// A piece without the spaces around it.
fn trimmed_of(piece: &[u8]) -> &[u8]
    ensures { result.now ≡ trimmed piece.now }
{
    let text = from(piece, b" ", false);
    let e = unspaced_end(text);
    &text[..e]
}

// What stands in quotes is its content.
#[tactic(auto, unfolding(crate::specs::Cells::unquoted))]
fn unquoted_of(word: &[u8]) -> &[u8]
    ensures { result.now ≡ unquoted word.now }
{
    match word {
        [b'"', text @ .., b'"'] => text,
        _ => word,
    }
}

// The cell that a piece is.
fn cell_of(piece: &[u8]) -> &[u8]
    ensures { result.now ≡ cell_from piece.now }
{
    unquoted_of(trimmed_of(piece))
}

// The first cell of a text.
fn first_cell(text: &[u8], s: u8) -> &[u8]
    ensures { result.now ≡ first_cell_of s text.now }
{
    let set = separators_of(s);
    cell_of(until(from_cell(text, s), &set))
}

// What comes after the first cell.
fn after_cell(text: &[u8], s: u8) -> &[u8]
    ensures { result.now ≡ after_cell s text.now }
{
    let set = separators_of(s);
    past(from_cell(text, s), &set)
}

// Cell i of a line, nothing where there is none.
pub fn cell_at(line: &[u8], i: usize) -> &[u8]
    ensures { result.now ≡ get_or (cells_of line.now) i [] }
{
    let s = decider_of(line);
    let mut rest = cells_text(line);
    for j in 0..i {
        let next = after_cell(rest, s);
        rest = next;
    }
    first_cell(rest, s)
}

// Whether a cell's number is from least to most.
#[tactic(auto, unfolding(crate::specs::Cells::is_within))]
fn is_within(word: &[u8], least: i64, most: i64) -> bool
    ensures { result ≡ is_within least most word.now }
{
    (least..=most).contains(&number_of(word))
}

// Whether a cell passes the test.
fn does_pass(word: &[u8], ranged: bool, least: i64, most: i64) -> bool
    ensures { result ≡ passes ranged least most word.now }
{
    if ranged {
        return is_within(word, least, most);
    }
    is_number(word)
}

// How many cells of a line come before the first that fails the test, and whether none fails.
pub fn leading(line: &[u8], ranged: bool, least: i64, most: i64) -> Run
    ensures { (result.passed ≡ before (fails (passes ranged least most)) (cells_of line.now))
        × ((result.all ≡ every (passes ranged least most) (cells_of line.now)) × (result.passed < 2 ^ 63)) }
{
    let s = decider_of(line);
    let mut rest = cells_text(line);
    let mut count: usize = 0;
    while from_cell(rest, s).len() > 0 {
        if !does_pass(first_cell(rest, s), ranged, least, most) {
            return Run {
                passed: count,
                all: false,
            };
        }
        count += 1;
        let next = after_cell(rest, s);
        rest = next;
    }
    Run {
        passed: count,
        all: true,
    }
}

// How many cells a line has.
pub fn cell_count(line: &[u8]) -> usize
    ensures { (result ≡ length (cells_of line.now)) × (result < 2 ^ 63) }
{
    let s = decider_of(line);
    let mut rest = cells_text(line);
    let mut count: usize = 0;
    while from_cell(rest, s).len() > 0 {
        count += 1;
        let next = after_cell(rest, s);
        rest = next;
    }
    count
}
