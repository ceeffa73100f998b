// Test of the windows of a history. Each case on standard input is the years and the width (eight bytes each, high byte first), how many exposures, cells and
// entries of the lent result there are (two bytes each), then the exposures, eight bytes each, and the cells, a sign byte, 1 for negative, and a size of seven
// bytes each. The result is lent full of -7. Writes the answer, and then the whole result after an answer of 0, or whether a refusal left it unchanged.
#![tactic(auto)]

ghost use Rattle.std.specs.Prelude.{◌<◌, ◌≤◌, ◌^◌, length};

use history::doonamurk_history;
use packing::field;
use printing::{put_outcome, read_full};
use valuation::pair_at;

// What each entry of the lent result holds before the call.
const LENT: i64 = -7;

// The number in the first eight bytes.
fn number_in(bytes: &[u8]) -> u64
    requires { 8 ≤ length bytes.now }
{
    let high = 65_536 * pair_at(bytes, 0) + pair_at(bytes, 2);
    let low = 65_536 * pair_at(bytes, 4) + pair_at(bytes, 6);
    (4_294_967_296 * high + low) as u64
}

// The number of this size that is negative where the sign is 1.
fn signed(sign: u8, size: u64) -> i64
    requires { size < 2 ^ 56 }
{
    let value = size as i64;
    if sign == 1 { -value } else { value }
}

// The cell in these bytes.
fn cell_in(bytes: &[u8; 8]) -> i64 {
    signed(bytes[0], field(bytes, 8, 56))
}

// Reads the exposures that the list has room for; false where the input ends before.
fn read_exposures(rt: &HostRuntime, list: &mut [u64]) -> bool {
    for x in list {
        let mut bytes = [0u8; 8];
        if read_full(rt, &mut bytes) < 8 {
            return false;
        }
        *x = number_in(&bytes);
    }
    true
}

// Reads the cells that the list has room for; false where the input ends before.
fn read_cells(rt: &HostRuntime, list: &mut [i64]) -> bool {
    for x in list {
        let mut bytes = [0u8; 8];
        if read_full(rt, &mut bytes) < 8 {
            return false;
        }
        *x = cell_in(&bytes);
    }
    true
}

// Reads exposures and cells and shows what is made of them; false where the input ends before.
fn show(
    rt: &HostRuntime,
    years: u64,
    width: u64,
    exposures: &mut [u64],
    cells: &mut [i64],
    res: &mut [i64],
) -> bool {
    if !read_exposures(rt, exposures) {
        return false;
    }
    if !read_cells(rt, cells) {
        return false;
    }
    let answer = doonamurk_history(years, width, exposures, cells, res);
    put_outcome(rt, answer, res, LENT);
    true
}

// One case; false at the end of the input, or where a list is too long.
fn case(rt: &HostRuntime) -> bool {
    let mut head = [0u8; 22];
    if read_full(rt, &mut head) < 22 {
        return false;
    }
    let years = number_in(&head);
    let width = number_in(&head[8..]);
    let n = pair_at(&head, 16);
    let c = pair_at(&head, 18);
    let room = pair_at(&head, 20);
    if 128 < n || 1024 < c || 2048 < room {
        return false;
    }
    let mut exposures = [0u64; 128];
    let mut cells = [0i64; 1024];
    let mut result = [LENT; 2048];
    show(
        rt,
        years,
        width,
        &mut exposures[..n],
        &mut cells[..c],
        &mut result[..room],
    )
}

fn main(rt: HostRuntime) {
    for _ in 0..1000usize {
        if !case(&rt) {
            return;
        }
    }
}
