// What is wrong with a line of a text of figures, and the word that it is about.
#![tactic(auto)]

ghost use Rattle.std.specs.Prelude.{◌≡◌, ◌-◌};
ghost use Rattle.composing.specs.Text.{Put};
ghost use Rattle.sheet.specs.Sheet.{wrong_in, word_in};

use cells::{cell_at, label_of, leading};
use composing::put_bytes;
use sheet::{Due, Wrong, has_label};

// What is wrong with a line where d is due.
pub fn wrong_in(line: &[u8], d: Due) -> Wrong
    ensures { result ≡ wrong_in d line.now }
{
    if !has_label(label_of(line), d.row) {
        return Wrong {
            problem: 1,
            cell: 0,
        };
    }
    let numbers = leading(line, false, 0, 0);
    if !numbers.all {
        return Wrong {
            problem: 2,
            cell: numbers.passed + 1,
        };
    }
    if numbers.passed != d.count {
        return Wrong {
            problem: 3,
            cell: numbers.passed,
        };
    }
    let ranges = leading(line, true, d.least, d.most);
    if !ranges.all {
        return Wrong {
            problem: 4,
            cell: ranges.passed + 1,
        };
    }
    Wrong {
        problem: 0,
        cell: 0,
    }
}

// One less, and 0 of 0.
fn one_less(n: usize) -> usize
    ensures { result ≡ n - 1 }
{
    if n > 0 { n - 1 } else { 0 }
}

// The word that a problem is about.
pub fn put_word(word: &mut [u8], line: &[u8], w: Wrong) -> usize
    ensures { Put word.old word.new 0 result (word_in w line.now) }
{
    if w.problem == 1 {
        return put_bytes(word, 0, label_of(line));
    }
    if w.problem == 3 {
        return 0;
    }
    put_bytes(word, 0, cell_at(line, one_less(w.cell)))
}
