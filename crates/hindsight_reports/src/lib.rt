// From a program's input to the page or the comma-separated values of a hindsight run, or in words why there is none.
#![tactic(auto)]

ghost use Rattle.std.specs.Prelude.{◌≡◌, true, ◌<◌, length, take, is_ok, IfOk, IfErr};
ghost use Rattle.composing.specs.Text.{Put};
ghost use Rattle.hindsight_lengths.specs.Page.{most_hindsight_page};
ghost use Rattle.hindsight_csv_lengths.specs.Text.{most_hindsight_csv};
ghost use Rattle.hindsight_reports.specs.Reported.{has_report_in, said_in, page_of, csv_of};

use hindsight_csv_lengths::{MOST_HINDSIGHT_CSV, hindsight_csv_of};
use hindsight_lengths::{MOST_HINDSIGHT_PAGE, hindsight_page_of};
use hindsight_run::list_hindsight;
use rules::MOST_HINDSIGHT;
use titled_input::{first_of, parts_of};

// The page of an input, of HTML or of text, or in the message why there is none; where what is written ends, or else how many bytes of the message there are.
pub fn report_hindsight(
    input: &[u8],
    html: bool,
    page: &mut [u8; MOST_HINDSIGHT_PAGE],
    message: &mut [u8],
) -> Result<usize, usize>
    ensures listed_value { (is_ok result ≡ has_report_in input.now)
        × (IfOk result (λ end. (end < most_hindsight_page) × (take end page.new ≡ page_of html input.now))
        × IfErr result (λ end. Put message.old message.new 0 end (said_in input.now))) }
    ensures page_len { is_ok result ≡ true → length page.new ≡ most_hindsight_page }
{
    let parts = parts_of(input);
    let from = parts.title;
    let sized = parts.sized;
    let line = parts.rates;
    let at = parts.packed;
    let mut list = [0i64; MOST_HINDSIGHT];
    let found = list_hindsight(&input[line..at], &input[at..], &mut list, message)?;
    Ok(hindsight_page_of(
        page,
        html,
        &input[from..sized],
        first_of(input),
        found.k,
        found.count,
        &found.settings,
        &list,
    ))
}

// Its comma-separated values, or in the message why there are none.
pub fn csv_hindsight(
    input: &[u8],
    text: &mut [u8; MOST_HINDSIGHT_CSV],
    message: &mut [u8],
) -> Result<usize, usize>
    ensures listed_value { (is_ok result ≡ has_report_in input.now)
        × (IfOk result (λ end. (end < most_hindsight_csv) × (take end text.new ≡ csv_of input.now))
        × IfErr result (λ end. Put message.old message.new 0 end (said_in input.now))) }
    ensures text_len { is_ok result ≡ true → length text.new ≡ most_hindsight_csv }
{
    let parts = parts_of(input);
    let line = parts.rates;
    let at = parts.packed;
    let mut list = [0i64; MOST_HINDSIGHT];
    let found = list_hindsight(&input[line..at], &input[at..], &mut list, message)?;
    Ok(hindsight_csv_of(
        text,
        first_of(input),
        found.k,
        found.count,
        &found.settings,
        &list,
    ))
}
