// The unit of a plot's axis in words, in a lent buffer.
#![tactic(auto)]

ghost use Rattle.composing.specs.Text.{Put};
ghost use Rattle.axis_words.specs.AxisWords.{unit_word, word_gap};

use composing::{put_byte, put_bytes};

// A unit above 1 in words.
#[tactic(auto, using(composing::proofs::Puts::put_none), unfolding(crate::specs::AxisWords::unit_word))]
pub fn put_unit_word(out: &mut [u8], at: usize, unit: u64) -> usize
    ensures { Put out.old out.new at result (unit_word unit) }
{
    if unit == 1 {
        at
    } else if unit == 1000 {
        put_bytes(out, at, b"thousands")
    } else if unit == 1_000_000 {
        put_bytes(out, at, b"millions")
    } else {
        put_bytes(out, at, b"thousand millions")
    }
}

// The space between it and a word for the axis.
#[tactic(auto, using(composing::proofs::Puts::put_none), unfolding(crate::specs::AxisWords::word_gap))]
pub fn put_word_gap(out: &mut [u8], at: usize, unit: u64, size: usize) -> usize
    ensures { Put out.old out.new at result (word_gap unit size) }
{
    if unit == 1 {
        at
    } else if size == 0 {
        at
    } else {
        put_byte(out, at, 32)
    }
}
