// From a program's input to the page or the comma-separated values of a history, or in words what is wrong with its text.
#![tactic(auto)]

ghost use Rattle.std.specs.Prelude.{◌≡◌, true, ◌<◌, length, take, is_ok, IfOk, IfErr};
ghost use Rattle.composing.specs.Text.{Put};
ghost use Rattle.history_lengths.specs.Page.{most_history_page};
ghost use Rattle.history_csv_lengths.specs.Text.{most_history_csv};
ghost use Rattle.history_wording.specs.Refused.{history_said};
ghost use Rattle.history_run.specs.Listed.{has_list};
ghost use Rattle.history_reports.specs.Reported.{text_in, page_of, csv_of};

use history_csv_lengths::{MOST_HISTORY_CSV, history_csv_of};
use history_lengths::{MOST_HISTORY_PAGE, history_page_of};
use history_run::list_text;
use rules::MOST_HISTORY_ENTRIES;
use titled_input::{first_of, parts_of};

// The page of an input, of HTML or of text, or in the message what is wrong with the text; where what is written ends, or else how many bytes of the message there are.
pub fn report_history(
    input: &[u8],
    html: bool,
    page: &mut [u8; MOST_HISTORY_PAGE],
    message: &mut [u8],
) -> Result<usize, usize>
    ensures listed_value { (is_ok result ≡ has_list (text_in input.now))
        × (IfOk result (λ end. (end < most_history_page) × (take end page.new ≡ page_of html input.now))
        × IfErr result (λ end. Put message.old message.new 0 end (history_said (text_in input.now)))) }
    ensures page_len { is_ok result ≡ true → length page.new ≡ most_history_page }
{
    let parts = parts_of(input);
    let from = parts.title;
    let sized = parts.sized;
    let at = parts.packed;
    let mut list = [0i64; MOST_HISTORY_ENTRIES];
    let found = list_text(&input[at..], &mut list, message)?;
    Ok(history_page_of(
        page,
        html,
        &input[from..sized],
        first_of(input),
        found.years,
        found.width,
        &list,
    ))
}

// Its comma-separated values, or in the message what is wrong with the text.
pub fn csv_history(
    input: &[u8],
    text: &mut [u8; MOST_HISTORY_CSV],
    message: &mut [u8],
) -> Result<usize, usize>
    ensures listed_value { (is_ok result ≡ has_list (text_in input.now))
        × (IfOk result (λ end. (end < most_history_csv) × (take end text.new ≡ csv_of input.now))
        × IfErr result (λ end. Put message.old message.new 0 end (history_said (text_in input.now)))) }
    ensures text_len { is_ok result ≡ true → length text.new ≡ most_history_csv }
{
    let parts = parts_of(input);
    let at = parts.packed;
    let mut list = [0i64; MOST_HISTORY_ENTRIES];
    let found = list_text(&input[at..], &mut list, message)?;
    Ok(history_csv_of(text, first_of(input), found.years, found.width, &list))
}
