// Shares through a long history: the separation of every position of a window that slides over the origin years.
#![tactic(auto)]

ghost use Rattle.std.specs.Prelude.{◌≡◌, ◌+◌, ◌*◌, ◌≤◌, ◌<◌, length};
ghost use Rattle.std.proofs.lemmas.List.Edits.{sets};
ghost use Rattle.rules.specs.Lists.{up_to, joined};
ghost use Rattle.rules.specs.History.{separation_entries, history_list, history_answer, history_into};
ghost use Rattle.totals.specs.CellSizes.{Cells};
ghost use Rattle.totals.specs.Squares.{cut_of};
ghost use Rattle.history_questions.specs.Asked.{Widths, History};

use history_averages::fill_history;
use history_questions::history_answer;
use positions::put_position;
use rules::{ACCEPTED, MOST_HISTORY};

// The entries of the first n positions of windows of the years 0 to k over the rows go into out, one after another.
fn fill_positions(out: &mut [i64], rows: &[[i64; 16]], k: usize, n: usize)
    requires { (Cells rows.now × (n + k ≤ length rows.now))
        × ((k < 16) × (n * (1 + 2 * (k + 1)) ≤ length out.old)) }
    ensures { out.new
        ≡ sets out.old 0 (joined (up_to (λ a. separation_entries (cut_of rows.now a k) k) n)) }
{
    let mut at: usize = 0;
    for a in 0..n {
        at = put_position(out, at, rows, a, k);
    }
}

// The list of a history that questions 27 and 28 accept.
fn fill_list(years: usize, width: usize, exposures: &[u64], cells: &[i64], res: &mut [i64])
    requires { Widths years width × History years width exposures.now cells.now (length res.old) }
    ensures { res.new ≡ history_list years width exposures.now cells.now }
{
    let mut rows = [[0i64; 16]; MOST_HISTORY];
    fill_history(years, width, exposures, cells, &mut rows);
    fill_positions(res, &rows, width - 1, years - width + 1);
}

// Fills the list of the history in windows of a width, position by position, and answers 0, or leaves the lent result as it was and answers 27 or 28, the number of the first of the
// two questions that says no. Of every accepted call the list has the length of the result.
#[unsafe(no_mangle)]
pub extern "C" fn doonamurk_history(
    years: u64,
    width: u64,
    exposures: &[u64],
    cells: &[i64],
    res: &mut [i64],
) -> u64
    ensures { (result ≡ history_answer years width exposures.now cells.now (length res.old))
        × (res.new ≡ history_into years width exposures.now cells.now res.old) }
{
    let answer = history_answer(years, width, exposures, cells, res.len());
    if answer != ACCEPTED {
        return answer;
    }
    fill_list(years as usize, width as usize, exposures, cells, res);
    answer
}
