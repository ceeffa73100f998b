// The next line of a text, where of figures a line of inflation may stand for the indices.
#![tactic(auto)]

ghost use Rattle.std.specs.Prelude.{◌≡◌, true, map, ◌+◌, ◌<◌, ◌≤◌, ◌^◌, pos, length, take};
ghost use Rattle.std.proofs.lemmas.List.Edits.{sets};
ghost use Rattle.sheet.specs.Table.{most_first, room_in};
ghost use Rattle.sheet.specs.Sheet.{stands_for_indices, indices_made, read_next};
ghost use Rattle.line_reading.specs.Reads.{Reads, Good};

use entries::put_naturals;
use inflation::inflation_indices;
use inflation_line::{fault_in, is_inflation, shape_of};
use line_reading::{last_year, read_line};
use sheet::Found;

// Whether a line of inflation stands at a place of figures where the indices are due, and makes them.
#[tactic(auto, using(history_sheet::proofs::Lines::first_most), unfolding(sheet::specs::Sheet::stands_for_indices))]
fn stands_for_indices(history: bool, k: usize, place: usize, line: &[u8]) -> bool
    requires { k ≤ most_first history }
    ensures { result ≡ stands_for_indices history k place line.now }
{
    !history && place == k + 3 && is_inflation(line) && fault_in(k as u64 + 1, line).kind == 0
}

// Puts the indices that it makes into the list from place `at` on.
fn put_made(list: &mut [i64], at: usize, history: bool, k: usize, place: usize, line: &[u8])
    requires { (k < 16) × ((at + k < length list.old) × (stands_for_indices history k place line.now ≡ true)) }
    ensures { list.new ≡ sets list.old at (map pos (indices_made k line.now)) }
{
    let made = inflation_indices(shape_of(line), k as u64 + 1);
    let values = made.values;
    put_naturals(list, at, &values, k + 1);
}

// The next line of a text, after what was found so far.
pub fn read_next(history: bool, line: &[u8], f: Found, list: &mut [i64], word: &mut [u8]) -> Found
    requires { (f.line < 2 ^ 63) × ((length list.old ≡ room_in history) × Good history (take f.count list.old) f.place f.count) }
    ensures { Reads (read_next history (f.line + 1) f.place (take f.count list.old) line.now)
        result list.old list.new word.old word.new }
{
    let k = last_year(list, f.count) as usize;
    if stands_for_indices(history, k, f.place, line) {
        put_made(list, f.count, history, k, f.place, line);
        let years = k + 1;
        return Found {
            problem: 0,
            line: f.line + 1,
            place: f.place + 1,
            cell: 0,
            word: 0,
            count: f.count + years,
        };
    }
    read_line(history, line, f, list, word)
}
