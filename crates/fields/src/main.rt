// Prints the fields of the record on standard input, one a line in the record's order, or `refused` and the number.
#![tactic(auto)]

use list_runs::put_fields;
use printing::{put_composed, read_input, say};

fn main(rt: HostRuntime) {
    let mut record = [0u8; 4096];
    let arrived = read_input(&rt, &mut record);
    let n = arrived.size;
    if arrived.failed {
        say(&rt, b"the input could not be read\n");
        return;
    }
    let mut text = [0u8; 16384];
    let end = put_fields(&mut text, 0, &record[..n]);
    put_composed(&rt, &text, end);
}
