// Runs the engine on standard input, a valuation year in two bytes, the high one first, and then a record: prints the entries of its result list, one a line,
// or `refused` and the number. An input without both bytes has no record: question 1 refuses it.
#![tactic(auto)]

use list_runs::put_list;
use printing::{put_composed, read_input, say};

fn main(rt: HostRuntime) {
    let mut input = [0u8; 4096];
    let arrived = read_input(&rt, &mut input);
    let n = arrived.size;
    if arrived.failed {
        say(&rt, b"the input could not be read\n");
        return;
    }
    let mut text = [0u8; 16384];
    let end = put_list(&mut text, 0, &input[..n]);
    put_composed(&rt, &text, end);
}
