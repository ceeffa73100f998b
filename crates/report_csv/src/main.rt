// Writes the result list of the valuation year and the record on standard input as comma-separated values; a refusal goes to standard error.
#![tactic(auto)]

use csv_report::csv;
use printing::{put_composed, put_first, read_valuation};

fn main(rt: HostRuntime) {
    let mut input = [0u8; 4096];
    let n = read_valuation(&rt, &mut input);
    if n > 0 {
        let mut text = [0u8; 65536];
        let written = csv(&input[..n], &mut text);
        if written.answer == 0 {
            put_composed(&rt, &text, written.end);
        } else {
            put_first(&rt.stderr(), &text, written.end);
        }
    }
}
