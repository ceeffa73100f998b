// How many places a number takes, and numbers at the right of a column.
#![tactic(auto)]

ghost use Rattle.std.specs.Prelude.{◌≡◌, ◌+◌, ◌≤◌, length};
ghost use Rattle.composing.specs.Text.{decimal, sign, fixed, right, Put};

use aligning::left_of;
use composing::{put_decimal, put_spaces};
use entries::size_of;
use fixed_text::{put_fixed, shortened};

// How many places n takes.
pub fn decimal_length(n: u64) -> usize
    ensures { result ≡ length (decimal n) }
{
    if n < 10 {
        1
    } else {
        decimal_length(n / 10) + 1
    }
}

// How many places the sign takes.
fn sign_length(z: i64) -> usize
    ensures { result ≡ length (sign z) }
{
    if z < 0 { 1 } else { 0 }
}

// How many places a number with d decimals takes before the decimals.
fn front_length(d: usize, z: i64) -> usize
    ensures { (length (fixed d z) ≡ result + d) × (result ≤ 22) }
{
    let n = decimal_length(shortened(d, size_of(z))) + sign_length(z);
    if d == 0 { n } else { n + 1 }
}

// How many places a number with d decimals takes.
pub fn fixed_length(d: usize, z: i64) -> usize
    requires { d ≤ 1000000 }
    ensures { result ≡ length (fixed d z) }
{
    front_length(d, z) + d
}

// A number with d decimals, at the right of w places.
pub fn put_right_fixed(out: &mut [u8], at: usize, w: usize, d: usize, z: i64) -> usize
    ensures { Put out.old out.new at result (right w (fixed d z)) }
{
    let left = left_of(left_of(w, d), front_length(d, z));
    let start = put_spaces(out, at, left);
    put_fixed(out, start, d, z)
}

// n at the right of w places.
pub fn put_right_decimal(out: &mut [u8], at: usize, w: usize, n: u64) -> usize
    ensures { Put out.old out.new at result (right w (decimal n)) }
{
    let start = put_spaces(out, at, left_of(w, decimal_length(n)));
    put_decimal(out, start, n)
}
