// The words of the plot of a development year's share by position, in a lent buffer.
#![tactic(auto)]

ghost use Rattle.composing.specs.Text.{Put};
ghost use Rattle.drift_words.specs.Words.{axis_word, drift_words};

use composing::{put_bytes, put_decimal};

// More bytes than the words have.
pub const MOST_WORDS: usize = 256;

// What the axis is in.
fn put_axis_word(out: &mut [u8], at: usize, percent: bool) -> usize
    ensures { Put out.old out.new at result (axis_word percent) }
{
    if percent {
        put_bytes(out, at, b"percent\n\n\n")
    } else {
        put_bytes(out, at, b"thousandths of a percent\n\n\n")
    }
}

// The words for development year j.
pub fn put_drift_words(out: &mut [u8], at: usize, j: u64, percent: bool) -> usize
    ensures { Put out.old out.new at result (drift_words j percent) }
{
    let a = put_bytes(out, at, b"Share of development year ");
    let b = put_decimal(out, a, j);
    let c = put_bytes(
        out,
        b,
        b" by position\nA bar for each position that is not refused, by its first origin year. The figures are in the tables of shares.\n",
    );
    put_axis_word(out, c, percent)
}
