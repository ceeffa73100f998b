// Whole numbers with their sign in a lent buffer.
#![tactic(auto)]

ghost use Rattle.composing.specs.Text.{sign, integer, Put};

use composing::{put_byte, put_decimal};
use entries::size_of;

// The minus sign of a number below zero.
#[tactic(auto, unfolding(composing::specs::Text::sign))]
pub fn put_sign(out: &mut [u8], at: usize, z: i64) -> usize
    ensures { Put out.old out.new at result (sign z) }
{
    if z < 0 { put_byte(out, at, b'-') } else { at }
}

// A whole number.
pub fn put_integer(out: &mut [u8], at: usize, z: i64) -> usize
    ensures { Put out.old out.new at result (integer z) }
{
    let end = put_sign(out, at, z);
    put_decimal(out, end, size_of(z))
}
