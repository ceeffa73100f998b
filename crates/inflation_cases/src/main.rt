// Test of the inflation calls. Each case on standard input is a shape (one byte: 0 flat, 1 fading, 2 shock) and four numbers of eight bytes, high byte first: the bits
// of the rate and of the second rate, the shock year and the years wanted. Writes the number and the sixteen indices on a line.
#![tactic(auto)]

ghost use Rattle.std.specs.Prelude.{◌≤◌, length};

use inflation::{doonamurk_fading, doonamurk_flat, doonamurk_shock};
use printing::{put_number, put_text, read_full};
use rate_text::float_of;
use rules::Indices;
use valuation::pair_at;

// The number in the first eight bytes.
fn number_in(bytes: &[u8]) -> u64
    requires { 8 ≤ length bytes.now }
{
    let high = 65_536 * pair_at(bytes, 0) + pair_at(bytes, 2);
    let low = 65_536 * pair_at(bytes, 4) + pair_at(bytes, 6);
    (4_294_967_296 * high + low) as u64
}

// An index behind a blank.
fn put_index(rt: &HostRuntime, x: u64) {
    put_text(rt, b" ");
    put_number(rt, x);
}

// The number and the indices of a call.
fn show(rt: &HostRuntime, made: Indices) {
    put_number(rt, made.refused);
    for x in &made.values {
        put_index(rt, *x);
    }
    put_text(rt, b"\n");
}

// One case; false at the end of the input.
fn case(rt: &HostRuntime) -> bool {
    let mut head = [0u8; 33];
    if read_full(rt, &mut head) < 33 {
        return false;
    }
    let rate = float_of(number_in(&head[1..]));
    let second = float_of(number_in(&head[9..]));
    let year = number_in(&head[17..]);
    let years = number_in(&head[25..]);
    if head[0] == 0 {
        show(rt, doonamurk_flat(rate, years));
    } else if head[0] == 1 {
        show(rt, doonamurk_fading(rate, second, years));
    } else {
        show(rt, doonamurk_shock(rate, second, year, years));
    }
    true
}

fn main(rt: HostRuntime) {
    for _ in 0..1000usize {
        if !case(&rt) {
            return;
        }
    }
}
