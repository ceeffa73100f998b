// Writes the report of the years, the title, a line of inflation and the record on standard input as a page of text.
#![tactic(auto)]

use printing::put_composed;
use report_input::read_report;
use report_lengths::{MOST_PAGE, report};

fn main(rt: HostRuntime) {
    let mut input = [0u8; 4096];
    let n = read_report(&rt, &mut input);
    if n > 0 {
        let mut page = [0u8; MOST_PAGE];
        let end = report(&input[..n], &mut page, false);
        put_composed(&rt, &page, end);
    }
}
