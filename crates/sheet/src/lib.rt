// The lines of a sheet of figures: one table, by which they are written, read and named.
#![tactic(auto)]

ghost use Rattle.std.specs.Prelude.{◌≡◌, [], ◌<◌, get_or};
ghost use Rattle.composing.specs.Text.{Put};
ghost use Rattle.sheet.specs.Table.{labels, due_at};
ghost use Rattle.scanning.specs.Parts.{same_text_of};

use cells::cell_at;
use composing::put_bytes;
use rules::{MILLION, MOST_AMOUNT, MOST_INDEX};
use scanning::same_text;

// A line that is due: its row, how many numbers it takes, the least and the most that each may be.
#[derive(Clone, Copy)]
pub struct Due {
    pub row: usize,
    pub count: usize,
    pub least: i64,
    pub most: i64,
}

// What is wrong with a line, and the number of the cell that it is about.
#[derive(Clone, Copy)]
pub struct Wrong {
    pub problem: u64,
    pub cell: usize,
}

// What reading comes to: a problem, 0 for none, the line of the text, the place of the line due, the cell that the problem is about, how long
// the word that it is about is, and how many numbers were read.
#[derive(Clone, Copy)]
pub struct Found {
    pub problem: u64,
    pub line: usize,
    pub place: usize,
    pub cell: usize,
    pub word: usize,
    pub count: usize,
}

// The line due at a place of the sheet of the years 0 to k.
pub fn due_at(k: usize, place: usize) -> Due
    requires { k < 16 }
    ensures { result ≡ due_at k place }
{
    if place == 0 {
        return Due {
            row: 0,
            count: 1,
            least: 1,
            most: 15,
        };
    }
    if place == 1 {
        return Due {
            row: 1,
            count: k + 1,
            least: 1,
            most: MILLION as i64,
        };
    }
    if place < k + 3 {
        return Due {
            row: 2,
            count: k + 3 - place,
            least: 0 - (MOST_AMOUNT as i64),
            most: MOST_AMOUNT as i64,
        };
    }
    if place == k + 3 {
        return Due {
            row: 3,
            count: k + 1,
            least: 1,
            most: MOST_INDEX as i64,
        };
    }
    if place == k + 4 {
        return Due {
            row: 4,
            count: k + 1,
            least: 0,
            most: MILLION as i64,
        };
    }
    if place == k + 5 {
        return Due {
            row: 5,
            count: 1,
            least: 0,
            most: MILLION as i64,
        };
    }
    if place == k + 6 {
        return Due {
            row: 6,
            count: k + 1,
            least: 0,
            most: MOST_AMOUNT as i64,
        };
    }
    Due {
        row: 7,
        count: 1,
        least: 0,
        most: MOST_AMOUNT as i64,
    }
}

// The label of a row.
pub fn put_label(out: &mut [u8], at: usize, row: usize) -> usize
    ensures { Put out.old out.new at result (get_or labels row []) }
{
    put_bytes(
        out,
        at,
        cell_at(
            b"labels k exposures paid indices reporting weight ulae tail years width",
            row,
        ),
    )
}

// Whether a word is the label of a row.
pub fn has_label(word: &[u8], row: usize) -> bool
    ensures { result ≡ same_text_of word.now (get_or labels row []) }
{
    let mut label = [0u8; 9];
    let n = put_label(&mut label, 0, row);
    same_text(word, &label[..n])
}
