// Writes the page of HTML of the text of a history on standard input, behind the years, the title and the line of a report's input; what is wrong with it goes to standard error.
#![tactic(auto)]

use history_lengths::MOST_HISTORY_PAGE;
use history_reports::report_history;
use printing::{put_composed, put_first};
use text_input::read_text;

fn main(rt: HostRuntime) {
    let mut input = [0u8; 65536];
    let n = read_text(&rt, &mut input);
    if n > 0 {
        let mut text = [0u8; MOST_HISTORY_PAGE];
        let mut message = [0u8; 256];
        match report_history(&input[..n], true, &mut text, &mut message) {
            Ok(end) => put_composed(&rt, &text, end),
            Err(said) => {
                put_first(&rt.stderr(), &message, said);
            }
        }
    }
}
