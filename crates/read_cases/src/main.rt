// Test of the reader. Each case on standard input is the length of a list (one byte), the length of a record (two bytes, high byte first) and
// the record. The list is lent full of -7. Writes the answer, and then the list after an answer of 0, or whether a refusal left it unchanged.
#![tactic(auto)]

use printing::{put_outcome, read_full};
use reader::doonamurk_read;

// What each entry of the lent list holds before the call.
const LENT: i64 = -7;

// Reads a record of this length and shows what the reader makes of it; false where the input ends before.
fn show(rt: &HostRuntime, packed: &mut [u8], list: &mut [i64]) -> bool {
    if read_full(rt, packed) < packed.len() {
        return false;
    }
    let answer = doonamurk_read(packed, list);
    put_outcome(rt, answer, list, LENT);
    true
}

// One case; false at the end of the input.
fn case(rt: &HostRuntime) -> bool {
    let mut head = [0u8; 3];
    if read_full(rt, &mut head) < 3 {
        return false;
    }
    let [room, high, low] = head;
    let room = usize::from(room);
    let size = 256 * usize::from(high) + usize::from(low);
    if 4096 < size {
        return false;
    }
    let mut packed = [0u8; 4096];
    let mut list = [LENT; 255];
    show(rt, &mut packed[..size], &mut list[..room])
}

fn main(rt: HostRuntime) {
    for _ in 0..1000usize {
        if !case(&rt) {
            return;
        }
    }
}
