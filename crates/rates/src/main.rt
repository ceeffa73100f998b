// Writes the line of inflation of a text of figures on standard input, up to its comment, or nothing where the text has none.
#![tactic(auto)]

use inflation_asking::line_wanted;
use inflation_line::is_inflation;
use printing::{put_output, read_input, say};
use sheet_reading::without_mark;

fn main(rt: HostRuntime) {
    let mut text = [0u8; 65536];
    let arrived = read_input(&rt, &mut text);
    let n = arrived.size;
    if arrived.failed {
        say(&rt, b"the input could not be read\n");
        return;
    }
    if n == 0 {
        say(&rt, b"nothing arrived: no text on standard input\n");
        return;
    }
    let line = line_wanted(true, without_mark(&text[..n]));
    if is_inflation(line) {
        put_output(&rt, line, line.len());
    }
}
