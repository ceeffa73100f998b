// Test of the engine. Each case on standard input is a valuation year (eight bytes, high byte first), the length of a result buffer and the length of a
// record (two bytes each, high byte first) and the record. The buffer is lent full of -7. Writes the answer, and then the whole buffer after an answer of 0, or whether a
// refusal left it unchanged.
#![tactic(auto)]

ghost use Rattle.std.specs.Prelude.{◌≤◌, length};

use engine::doonamurk_run;
use printing::{put_outcome, read_full};
use valuation::pair_at;

// What each entry of the lent list holds before the call.
const LENT: i64 = -7;

// Reads a record of this length and shows what the engine makes of it; false where the input ends before.
fn show(rt: &HostRuntime, year: u64, packed: &mut [u8], results: &mut [i64]) -> bool {
    if read_full(rt, packed) < packed.len() {
        return false;
    }
    let answer = doonamurk_run(year, packed, results);
    put_outcome(rt, answer, results, LENT);
    true
}

// The year in the first eight bytes.
fn year_in(head: &[u8]) -> u64
    requires { 8 ≤ length head.now }
{
    let high = 65_536 * pair_at(head, 0) + pair_at(head, 2);
    let low = 65_536 * pair_at(head, 4) + pair_at(head, 6);
    (4_294_967_296 * high + low) as u64
}

// One case; false at the end of the input.
fn case(rt: &HostRuntime) -> bool {
    let mut head = [0u8; 12];
    if read_full(rt, &mut head) < 12 {
        return false;
    }
    let year = year_in(&head);
    let room = pair_at(&head, 8);
    let size = pair_at(&head, 10);
    if 512 < room || 4096 < size {
        return false;
    }
    let mut packed = [0u8; 4096];
    let mut results = [LENT; 512];
    show(rt, year, &mut packed[..size], &mut results[..room])
}

fn main(rt: HostRuntime) {
    for _ in 0..1000usize {
        if !case(&rt) {
            return;
        }
    }
}
