// Numbers with decimals in a lent buffer.
#![tactic(auto)]

ghost use Rattle.std.specs.Prelude.{◌≡◌};
ghost use Rattle.composing.specs.Text.{last_digits_of, without, fixed, Put};

use composing::{digit_of, put_byte, put_decimal};
use entries::size_of;
use signed_text::{put_integer, put_sign};

// n without its last d digits.
pub fn shortened(d: usize, n: u64) -> u64
    ensures { result ≡ without d n }
{
    let mut rest = n;
    for i in 0..d {
        rest = rest / 10;
    }
    rest
}

// The last m digits of n.
pub fn put_last(out: &mut [u8], at: usize, m: usize, n: u64) -> usize
    ensures { Put out.old out.new at result (last_digits_of m n) }
{
    let mut end = at;
    for i in 0..m {
        let front = shortened(m - (i + 1), n);
        end = put_byte(out, end, digit_of(front % 10));
    }
    end
}

// A number that counts units of 10^-d, with d decimals.
pub fn put_fixed(out: &mut [u8], at: usize, d: usize, z: i64) -> usize
    ensures { Put out.old out.new at result (fixed d z) }
{
    if d == 0 {
        put_integer(out, at, z)
    } else {
        let n = size_of(z);
        let whole = put_sign(out, at, z);
        let point = put_decimal(out, whole, shortened(d, n));
        let decimals = put_byte(out, point, b'.');
        put_last(out, decimals, d, n)
    }
}
