// A history typed as text, read into a list of numbers, or in words what is wrong with it.
#![tactic(auto)]

ghost use Rattle.std.specs.Prelude.{◌≡◌, ◌≤◌};
ghost use Rattle.std.proofs.lemmas.List.Edits.{sets};
ghost use Rattle.rules.specs.History.{most_history, most_width};
ghost use Rattle.composing.specs.Text.{Put};
ghost use Rattle.sheet.specs.Sheet.{last_year_in, read_history};
ghost use Rattle.line_reading.specs.Reads.{Reads};
ghost use Rattle.history_wording.specs.Refused.{history_said};
ghost use Rattle.history_parts.specs.Parts.{width_in};
ghost use Rattle.history_reading.specs.Taken.{history_numbers};

use entries::size_of;
use history_sheet::MOST_NUMBERS;
use history_wording::put_wrong;
use sheet::Found;
use sheet_reading::read_text;

// What is taken from a text: the problem, 0 for none, the years and the width, 0 where there is one, and how many bytes of the message there are.
#[derive(Clone, Copy)]
pub struct Taken {
    pub problem: u64,
    pub years: u64,
    pub width: u64,
    pub said: usize,
}

// Reads the history of a text.
pub fn read_history(text: &[u8], list: &mut [i64; MOST_NUMBERS], word: &mut [u8]) -> Found
    ensures { Reads (read_history text.now) result list.old list.new word.old word.new }
{
    read_text(true, text, list, word)
}

// Takes the history of a text into the list, or says in the message what is wrong with it.
pub fn take_history(text: &[u8], list: &mut [i64; MOST_NUMBERS], message: &mut [u8]) -> Taken
    ensures { (result.problem ≡ (read_history text.now).problem)
        × ((result.years ≡ last_year_in (history_numbers text.now))
        × ((result.width ≡ width_in (history_numbers text.now))
        × ((list.new ≡ sets list.old 0 (read_history text.now).numbers)
        × (Put message.old message.new 0 result.said (history_said text.now)
        × ((result.years ≤ most_history) × (result.width ≤ most_width)))))) }
{
    let mut word = [0u8; 20];
    let f = read_text(true, text, list, &mut word);
    if f.problem != 0 {
        let said = put_wrong(message, true, f, list, &word);
        return Taken {
            problem: f.problem,
            years: 0,
            width: 0,
            said,
        };
    }
    Taken {
        problem: 0,
        years: size_of(list[0]),
        width: size_of(list[1]),
        said: 0,
    }
}
