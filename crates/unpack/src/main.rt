// Writes the figures of the record on standard input as a text of labelled lines; a refusal goes to standard error.
#![tactic(auto)]

use printing::{put_composed, put_first, read_record};
use sheet_writing::unpack;
use wording::put_refusal;

// The figures of a record, or the words of its refusal.
fn put_figures(rt: &HostRuntime, packed: &[u8]) {
    let mut text = [0u8; 8192];
    match unpack(packed, &mut text) {
        Ok(end) => put_composed(rt, &text, end),
        Err(answer) => {
            let mut message = [0u8; 256];
            let said = put_refusal(&mut message, 0, answer);
            put_first(&rt.stderr(), &message, said);
        }
    }
}

fn main(rt: HostRuntime) {
    let mut packed = [0u8; 4096];
    let n = read_record(&rt, &mut packed);
    if n > 0 {
        put_figures(&rt, &packed[..n]);
    }
}
