// Writes the page of HTML of the hindsight run of a record on standard input, behind the years and the title of a report's input and, in the place of its line, the settings; what is wrong with
// the settings, or a refusal, goes to standard error.
#![tactic(auto)]

use hindsight_lengths::MOST_HINDSIGHT_PAGE;
use hindsight_reports::report_hindsight;
use printing::{put_composed, put_first};
use report_input::read_report;

fn main(rt: HostRuntime) {
    let mut input = [0u8; 4096];
    let n = read_report(&rt, &mut input);
    if n > 0 {
        let mut text = [0u8; MOST_HINDSIGHT_PAGE];
        let mut message = [0u8; 256];
        match report_hindsight(&input[..n], true, &mut text, &mut message) {
            Ok(end) => put_composed(&rt, &text, end),
            Err(said) => {
                put_first(&rt.stderr(), &message, said);
            }
        }
    }
}
