// A line of a text, of a history or of figures, read into a list of numbers; and the end of the text.
#![tactic(auto)]

ghost use Rattle.std.specs.Prelude.{◌≡◌, List, [], ℕ, ◌+◌, ◌<◌, ◌≤◌, ◌^◌, length, get_or, take};
ghost use Rattle.std.proofs.lemmas.List.Edits.{sets};
ghost use Rattle.rules.specs.Lists.{up_to};
ghost use Rattle.scanning.specs.Numbers.{whole_of};
ghost use Rattle.cells.specs.Cells.{cells_of};
ghost use Rattle.sheet.specs.Table.{room_in};
ghost use Rattle.sheet.specs.Sheet.{last_year_in, fine, read_line, read_lines};
ghost use Rattle.line_reading.specs.Reads.{Reads, Good};

use cells::{cell_at, is_bare, label_of};
use composing::put_bytes;
use entries::size_of;
use history_sheet::{due_in, lines_in};
use line_checks::{put_word, wrong_in};
use scanning::number_of;
use sheet::Found;

// The first of the numbers so far, k or the years, or 0.
pub fn last_year(list: &[i64], count: usize) -> u64
    requires { count ≤ length list.now }
    ensures { result ≡ last_year_in (take count list.now) }
{
    if count == 0 {
        return 0;
    }
    size_of(list[0])
}

// The numbers of n cells of a line go into the list from place `at` on.
fn put_numbers(list: &mut [i64], at: usize, line: &[u8], n: usize)
    requires { at + n ≤ length list.old }
    ensures { list.new ≡ sets list.old at (up_to (λ i. whole_of (get_or (cells_of line.now) i [])) n) }
{
    for i in 0..n {
        list[at + i] = number_of(cell_at(line, i));
    }
}

// The next line of a text, after what was found so far.
pub fn read_line(history: bool, line: &[u8], f: Found, list: &mut [i64], word: &mut [u8]) -> Found
    requires { (f.line < 2 ^ 63) × ((length list.old ≡ room_in history) × Good history (take f.count list.old) f.place f.count) }
    ensures { Reads (read_line history (f.line + 1) f.place (take f.count list.old) line.now)
        result list.old list.new word.old word.new }
{
    let number = f.line + 1;
    if is_bare(line) {
        return Found {
            problem: 0,
            line: number,
            place: f.place,
            cell: 0,
            word: 0,
            count: f.count,
        };
    }
    let k = last_year(list, f.count) as usize;
    if f.place == lines_in(history, k) {
        let size = put_bytes(word, 0, label_of(line));
        return Found {
            problem: 6,
            line: number,
            place: f.place,
            cell: 0,
            word: size,
            count: f.count,
        };
    }
    let d = due_in(history, k, f.place);
    let w = wrong_in(line, d);
    if w.problem != 0 {
        let size = put_word(word, line, w);
        return Found {
            problem: w.problem,
            line: number,
            place: f.place,
            cell: w.cell,
            word: size,
            count: f.count,
        };
    }
    put_numbers(list, f.count, line, d.count);
    Found {
        problem: 0,
        line: number,
        place: f.place + 1,
        cell: 0,
        word: 0,
        count: f.count + d.count,
    }
}

// The end of a text, after what was found so far.
pub fn read_end(history: bool, f: Found, list: &[i64]) -> Found
    requires { (length list.now ≡ room_in history) × Good history (take f.count list.now) f.place f.count }
    ensures { (w : List ℕ) → Reads (read_lines history (fine f.line f.place (take f.count list.now)) [])
        result list.now list.now w w }
{
    let k = last_year(list, f.count) as usize;
    let mut problem: u64 = 5;
    if lines_in(history, k) == f.place {
        problem = 0;
    }
    Found {
        problem,
        line: f.line,
        place: f.place,
        cell: 0,
        word: 0,
        count: f.count,
    }
}
