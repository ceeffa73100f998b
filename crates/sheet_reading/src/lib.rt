// A history or figures typed as text, read line by line into a list of numbers.
#![tactic(auto)]

ghost use Rattle.std.specs.Prelude.{◌≡◌, length};
ghost use Rattle.sheet.specs.Table.{room_in};
ghost use Rattle.sheet.specs.Sheet.{unmarked, read_text, read_sheet};
ghost use Rattle.line_reading.specs.Reads.{Reads};

use cells::content_of;
use inflation_reading::read_next;
use kinds::is_marked;
use line_reading::read_end;
use rules::MOST_FIELDS;
use scanning::{past, until};
use sheet::Found;

// A text without the mark at its very start.
pub fn without_mark(text: &[u8]) -> &[u8]
    ensures { result.now ≡ unmarked text.now }
{
    if is_marked(text) {
        return &text[3..];
    }
    text
}

// Reads the numbers of a text, of a history or of figures, into the list, and the word that a problem is about into the lent bytes.
pub fn read_text(history: bool, text: &[u8], list: &mut [i64], word: &mut [u8]) -> Found
    requires { length list.old ≡ room_in history }
    ensures { Reads (read_text history text.now) result list.old list.new word.old word.new }
{
    let mut rest = without_mark(text);
    let mut f = Found {
        problem: 0,
        line: 0,
        place: 0,
        cell: 0,
        word: 0,
        count: 0,
    };
    loop {
        let line = until(rest, b"\n");
        f = read_next(history, content_of(line), f, list, word);
        if f.problem != 0 {
            return f;
        }
        if line.len() == rest.len() {
            return read_end(history, f, list);
        }
        let next = past(rest, b"\n");
        rest = next;
    }
}

// Reads the figures of a text.
pub fn read_sheet(text: &[u8], list: &mut [i64; MOST_FIELDS], word: &mut [u8]) -> Found
    ensures { Reads (read_sheet text.now) result list.old list.new word.old word.new }
{
    read_text(false, text, list, word)
}
