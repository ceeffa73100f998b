// Test of the hindsight run. Each case on standard input is the length of a record, the number of settings and the length of the lent report (two bytes each, high
// byte first), then the record, and the settings, eight bytes each. The report is lent full of -7. Writes the answer, and then the whole report after an answer of
// 0, or whether a refusal left it unchanged.
#![tactic(auto)]

ghost use Rattle.std.specs.Prelude.{◌≤◌, length};

use hindsight::doonamurk_hindsight;
use printing::{put_outcome, read_full};
use valuation::pair_at;

// What each entry of the lent report holds before the call.
const LENT: i64 = -7;

// The number in the first eight bytes.
fn number_in(bytes: &[u8]) -> u64
    requires { 8 ≤ length bytes.now }
{
    let high = 65_536 * pair_at(bytes, 0) + pair_at(bytes, 2);
    let low = 65_536 * pair_at(bytes, 4) + pair_at(bytes, 6);
    (4_294_967_296 * high + low) as u64
}

// Reads the settings that the list has room for; false where the input ends before.
fn read_settings(rt: &HostRuntime, list: &mut [u64]) -> bool {
    for x in list {
        let mut bytes = [0u8; 8];
        if read_full(rt, &mut bytes) < 8 {
            return false;
        }
        *x = number_in(&bytes);
    }
    true
}

// Reads a record of this length and the settings and shows what is made of them; false where the input ends before.
fn show(rt: &HostRuntime, packed: &mut [u8], settings: &mut [u64], report: &mut [i64]) -> bool {
    if read_full(rt, packed) < packed.len() {
        return false;
    }
    if !read_settings(rt, settings) {
        return false;
    }
    let answer = doonamurk_hindsight(packed, settings, report);
    put_outcome(rt, answer, report, LENT);
    true
}

// One case; false at the end of the input, or where a list is too long.
fn case(rt: &HostRuntime) -> bool {
    let mut head = [0u8; 6];
    if read_full(rt, &mut head) < 6 {
        return false;
    }
    let size = pair_at(&head, 0);
    let n = pair_at(&head, 2);
    let room = pair_at(&head, 4);
    if 4096 < size || 512 < n || 1024 < room {
        return false;
    }
    let mut packed = [0u8; 4096];
    let mut settings = [0u64; 512];
    let mut report = [LENT; 1024];
    show(
        rt,
        &mut packed[..size],
        &mut settings[..n],
        &mut report[..room],
    )
}

fn main(rt: HostRuntime) {
    for _ in 0..1000usize {
        if !case(&rt) {
            return;
        }
    }
}
