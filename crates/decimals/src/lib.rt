// Decimals of a text, read as the nearest float.
#![tactic(auto)]

ghost use Rattle.std.specs.Prelude.{◌≡◌, true, ◌<◌, ◌≤◌, ◌^◌};
ghost use Rattle.std.specs.Float.{binary64};
ghost use Rattle.std.specs.Float.Ieee.{round};
ghost use Rattle.decimals.specs.Decimals.{is_negative, unsigned, whole_digits, fraction_digits, most_digits, is_decimal, decimal_of};

use scanning::{is_natural, past, size_from, until};

// Whether a minus sign stands in front.
fn is_negative(word: &[u8]) -> bool
    ensures { result ≡ is_negative word.now }
{
    matches!(word, [b'-', ..])
}

// A word without a minus sign in front.
#[tactic(auto, unfolding(crate::specs::Decimals::unsigned))]
fn unsigned_of(word: &[u8]) -> &[u8]
    ensures { result.now ≡ unsigned word.now }
{
    match word {
        [b'-', size @ ..] => size,
        _ => word,
    }
}

// The digits before the point, and those after it.
fn whole_digits(word: &[u8]) -> &[u8]
    ensures { result.now ≡ whole_digits word.now }
{
    until(unsigned_of(word), b".")
}

fn fraction_digits(word: &[u8]) -> &[u8]
    ensures { result.now ≡ fraction_digits word.now }
{
    past(unsigned_of(word), b".")
}

// Whether a word is a decimal.
#[tactic(auto, using(crate::proofs::Decimals::decimal_long, crate::proofs::Decimals::decimal_digits, crate::proofs::Decimals::decimal_parts, crate::proofs::Decimals::decimal_none))]
pub fn is_decimal(word: &[u8]) -> bool
    ensures { result ≡ is_decimal word.now }
{
    let whole = whole_digits(word);
    let fraction = fraction_digits(word);
    whole.len() <= 15
        && fraction.len() <= 15 - whole.len()
        && (is_natural(unsigned_of(word)) || is_natural(whole) && is_natural(fraction))
}

// 10^n.
#[tactic(auto, using(crate::proofs::Decimals::ten_most))]
fn power_of_ten(n: usize) -> u64
    requires { n ≤ most_digits }
    ensures { result ≡ 10 ^ n }
{
    10u64.pow(n as u32)
}

// The float nearest to n / 10^d: both are floats, so that one rounded division finds it.
fn quotient_of(negative: bool, n: u64, d: usize) -> f64
    requires { (n < 2 ^ 53) × (d ≤ most_digits) }
    ensures { result ≡ round binary64 negative n (10 ^ d) }
{
    let size = n as f64;
    let power = power_of_ten(d) as f64;
    if negative {
        return (-size) / power;
    }
    size / power
}

// The float nearest to a decimal.
pub fn decimal_of(word: &[u8]) -> f64
    requires { is_decimal word.now ≡ true }
    ensures { result ≡ decimal_of word.now }
{
    let whole = size_from(0, whole_digits(word));
    let fraction = fraction_digits(word);
    let n = size_from(whole, fraction);
    quotient_of(is_negative(word), n, fraction.len())
}
