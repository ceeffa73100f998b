// From the text of a history to the list of its positions, or in words what is wrong with it.
#![tactic(auto)]

ghost use Rattle.std.specs.Prelude.{◌≡◌, cond, length, is_ok, IfOk};
ghost use Rattle.std.proofs.lemmas.List.Edits.{sets};
ghost use Rattle.rules.specs.History.{most_history_entries, history_count, history_list, history_answer};
ghost use Rattle.composing.specs.Text.{Put};
ghost use Rattle.history_wording.specs.Refused.{history_said, message_bytes};
ghost use Rattle.history_parts.specs.Parts.{exposures_after, increments_after};
ghost use Rattle.history_run.specs.Listed.{years_of, width_of, list_of, has_list};

use history::doonamurk_history;
use history_parts::{exposures_of, increments_of};
use history_reading::take_history;
use history_sheet::MOST_NUMBERS;

// The years and the width of a history that has a list.
#[derive(Clone, Copy)]
pub struct Listed {
    pub years: usize,
    pub width: usize,
}

// The list of a history that the call accepts, among the numbers of its text.
fn fill_from(years: usize, width: usize, numbers: &[i64; MOST_NUMBERS], list: &mut [i64])
    requires { (length list.old ≡ most_history_entries)
        × (history_answer years width (exposures_after years numbers.now) (increments_after years numbers.now) (history_count years width) ≡ 0) }
    ensures { list.new
        ≡ sets list.old 0 (history_list years width (exposures_after years numbers.now) (increments_after years numbers.now)) }
{
    let exposures = exposures_of(numbers, years);
    let cells = increments_of(numbers, years);
    let m = (years - width + 1) * (1 + 2 * width);
    doonamurk_history(
        years as u64,
        width as u64,
        &exposures[..years],
        cells,
        &mut list[..m],
    );
}

// Fills the list of the history of a text from its start on, or says in the message what is wrong with it; the error is how many bytes of the message there are.
pub fn list_text(text: &[u8], list: &mut [i64], message: &mut [u8]) -> Result<Listed, usize>
    requires { length list.old ≡ most_history_entries }
    ensures { (is_ok result ≡ has_list text.now)
        × (IfOk result (λ found. (found.years ≡ years_of text.now) × (found.width ≡ width_of text.now))
        × ((list.new ≡ cond (has_list text.now) (sets list.old 0 (list_of text.now)) list.old)
        × Put message.old message.new 0 (message_bytes result) (history_said text.now))) }
{
    let mut numbers = [0i64; MOST_NUMBERS];
    let taken = take_history(text, &mut numbers, message);
    if taken.problem != 0 {
        return Err(taken.said);
    }
    let years = taken.years as usize;
    let width = taken.width as usize;
    fill_from(years, width, &numbers, list);
    Ok(Listed { years, width })
}
