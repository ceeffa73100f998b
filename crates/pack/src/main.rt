// Packs the figures on standard input, a text of labelled lines, into a record on standard output; what is wrong with them goes to standard error.
#![tactic(auto)]

use printing::{put_first, put_output, read_input, say};
use rules::MOST_BYTES;
use text_packing::pack_text;

// The first n bytes on standard output.
fn put_record(rt: &HostRuntime, packed: &[u8; MOST_BYTES], n: usize) {
    put_output(rt, packed, n);
}

fn main(rt: HostRuntime) {
    let mut text = [0u8; 65536];
    let arrived = read_input(&rt, &mut text);
    let n = arrived.size;
    if arrived.failed {
        say(&rt, b"the input could not be read\n");
        return;
    }
    if n == 0 {
        say(&rt, b"nothing arrived: no text on standard input\n");
        return;
    }
    if n == 65536 {
        say(&rt, b"the text is longer than 65,535 bytes\n");
        return;
    }
    let mut packed = [0u8; MOST_BYTES];
    let mut message = [0u8; 256];
    match pack_text(&text[..n], &mut packed, &mut message) {
        Ok(size) => put_record(&rt, &packed, size),
        Err(said) => {
            put_first(&rt.stderr(), &message, said);
        }
    }
}
