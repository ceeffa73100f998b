// A rate in a text: a decimal, or the bits of a float in hexadecimal.
#![tactic(auto)]

ghost use Rattle.std.specs.Prelude.{◌≡◌, true, ◌<◌};
ghost use Rattle.std.specs.Float.{binary64};
ghost use Rattle.std.specs.Float.Ieee.{of_bits};
ghost use Rattle.rate_text.specs.RateText.{is_hex_digit, hex_digit, is_bits, bits_from, is_rate, rate_of};

use decimals::{decimal_of, is_decimal};

#[tactic(auto, unfolding(crate::specs::RateText::is_hex_digit))]
fn is_hex_digit(b: u8) -> bool
    ensures { result ≡ is_hex_digit b }
{
    matches!(b, b'0'..=b'9' | b'A'..=b'F' | b'a'..=b'f')
}

// The value of a hexadecimal digit.
#[tactic(auto, unfolding(crate::specs::RateText::is_hex_digit, crate::specs::RateText::hex_digit))]
fn hex_digit(b: u8) -> u64
    requires { is_hex_digit b ≡ true }
    ensures { (result ≡ hex_digit b) × (result < 16) }
{
    match b {
        b'0'..=b'9' => u64::from(b - b'0'),
        b'A'..=b'F' => u64::from(b - b'A' + 10),
        _ => u64::from(b - b'a' + 10),
    }
}

// Whether a word is sixteen hexadecimal digits.
#[tactic(auto, unfolding(crate::specs::RateText::is_bits))]
fn is_bits(word: &[u8]) -> bool
    ensures { result ≡ is_bits word.now }
{
    word.len() == 16 && word.iter().all(|b| is_hex_digit(*b))
}

// The number that they make.
fn bits_of(word: &[u8]) -> u64
    requires { is_bits word.now ≡ true }
    ensures { result ≡ bits_from 0 word.now }
{
    let mut bits: u64 = 0;
    for b in word {
        bits = 16 * bits + hex_digit(*b);
    }
    bits
}

// The float of a bit pattern. `f64::from_bits` is undefined at a NaN's, so a NaN is made by a division.
#[tactic(auto, using(crate::proofs::Patterns::above, crate::proofs::Patterns::below, crate::proofs::Patterns::zero_over_zero))]
pub fn float_of(bits: u64) -> f64
    ensures { result ≡ of_bits binary64 bits }
{
    if 0x7ff0_0000_0000_0000 < bits % 0x8000_0000_0000_0000 {
        return 0.0 / 0.0;
    }
    f64::from_bits(bits)
}

// Whether a word is a rate.
#[tactic(auto, unfolding(crate::specs::RateText::is_rate))]
pub fn is_rate(word: &[u8]) -> bool
    ensures { result ≡ is_rate word.now }
{
    is_bits(word) || is_decimal(word)
}

// The float that it is, a NaN where the word is none.
pub fn rate_of(word: &[u8]) -> f64
    ensures { result ≡ rate_of word.now }
{
    if is_bits(word) {
        return float_of(bits_of(word));
    }
    if is_decimal(word) {
        return decimal_of(word);
    }
    float_of(0x7ff8_0000_0000_0000)
}
