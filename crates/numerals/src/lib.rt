// Numbers to be read, in a lent buffer: groups of three digits.
#![tactic(auto)]

ghost use Rattle.composing.specs.Text.{Put};
ghost use Rattle.numerals.specs.Numerals.{grouped, numeral, number, spaced};

use composing::{put_byte, put_bytes, put_decimal};
use entries::size_of;
use fixed_text::{put_last, shortened};
use signed_text::put_sign;

// n in groups.
fn put_grouped(out: &mut [u8], at: usize, before: &[u8], after: &[u8], n: u64) -> usize
    ensures { Put out.old out.new at result (grouped before.now after.now n) }
{
    if n < 1000 {
        put_decimal(out, at, n)
    } else {
        let front = put_grouped(out, at, before, after, n / 1000);
        let digits = put_bytes(out, front, before);
        let end = put_last(out, digits, 3, n);
        put_bytes(out, end, after)
    }
}

// A number that counts units of 10^-d, in groups, with d decimals.
fn put_numeral(out: &mut [u8], at: usize, before: &[u8], after: &[u8], d: usize, z: i64) -> usize
    ensures { Put out.old out.new at result (numeral before.now after.now d z) }
{
    let n = size_of(z);
    let whole = put_sign(out, at, z);
    let point = put_grouped(out, whole, before, after, shortened(d, n));
    if d == 0 {
        point
    } else {
        let decimals = put_byte(out, point, 46);
        put_last(out, decimals, d, n)
    }
}

// In text and tables.
pub fn put_number(out: &mut [u8], at: usize, d: usize, z: i64) -> usize
    ensures { Put out.old out.new at result (number d z) }
{
    put_numeral(out, at, b"<i>", b"</i>", d, z)
}

// In plots.
pub fn put_spaced(out: &mut [u8], at: usize, d: usize, z: i64) -> usize
    ensures { Put out.old out.new at result (spaced d z) }
{
    put_numeral(out, at, b" ", b"", d, z)
}
