// The line of inflation of a text of figures, asked before any other line but that of k. A mark at the text's start is taken off before.
#![tactic(auto)]

ghost use Rattle.std.specs.Prelude.{◌≡◌, true, [], ◌+◌, ◌<◌, ◌≤◌, length, get_or};
ghost use Rattle.sheet.specs.Sheet.{lines, is_wanted, lines_before, line_wanted, year_asked, fault_asked};

use cells::{content_of, is_bare};
use inflation_line::{Fault, fault_in, is_inflation};
use line_reading::{last_year, read_line};
use rules::MOST_FIELDS;
use scanning::{past, until};
use sheet::Found;

// Whether a line is one of inflation, or, where that is not wanted, one that is not bare.
fn is_wanted(inflation: bool, line: &[u8]) -> bool
    ensures { result ≡ is_wanted inflation line.now }
{
    if inflation {
        return is_inflation(content_of(line));
    }
    !is_bare(content_of(line))
}

// How many lines of a text come before the first such line.
pub fn lines_before(inflation: bool, text: &[u8]) -> usize
    ensures { (result ≡ lines_before inflation (lines text.now)) × (result ≤ length text.now + 1) }
{
    let mut rest = text;
    let mut n: usize = 0;
    loop {
        let line = until(rest, b"\n");
        if is_wanted(inflation, line) {
            return n;
        }
        if line.len() == rest.len() {
            return n + 1;
        }
        n += 1;
        let next = past(rest, b"\n");
        rest = next;
    }
}

// Line n of a text, nothing where there is none.
fn line_at(text: &[u8], n: usize) -> &[u8]
    ensures { result.now ≡ get_or (lines text.now) n [] }
{
    let mut rest = text;
    for i in 0..n {
        let next = past(rest, b"\n");
        rest = next;
    }
    until(rest, b"\n")
}

// The first such line of a text.
pub fn line_wanted(inflation: bool, text: &[u8]) -> &[u8]
    ensures { result.now ≡ line_wanted inflation (lines text.now) }
{
    content_of(line_at(text, lines_before(inflation, text)))
}

// k of a text, 0 where its first line that is not bare is not as due.
pub fn year_asked(text: &[u8]) -> u64
    ensures { (result ≡ year_asked (lines text.now)) × (result < 16) }
{
    let mut list = [0i64; MOST_FIELDS];
    let mut word = [0u8; 20];
    let f = Found {
        problem: 0,
        line: 0,
        place: 0,
        cell: 0,
        word: 0,
        count: 0,
    };
    let found = read_line(false, line_wanted(false, text), f, &mut list, &mut word);
    last_year(&list, found.count)
}

// What is wrong with the line of inflation of a text.
pub fn fault_asked(text: &[u8]) -> Fault
    ensures { result ≡ fault_asked (lines text.now) }
{
    let k = year_asked(text);
    if k > 0 {
        let line = line_wanted(true, text);
        if is_inflation(line) {
            return fault_in(k + 1, line);
        }
    }
    Fault { kind: 0, about: 0 }
}
