// Text at the right of a column.
#![tactic(auto)]

ghost use Rattle.std.specs.Prelude.{◌≡◌, ◌-◌};
ghost use Rattle.composing.specs.Text.{right, Put};

use composing::{put_bytes, put_spaces};

// How many of w places are left after n.
pub fn left_of(w: usize, n: usize) -> usize
    ensures { result ≡ w - n }
{
    if n < w { w - n } else { 0 }
}

// A text at the right of w places.
pub fn put_right(out: &mut [u8], at: usize, w: usize, text: &[u8]) -> usize
    ensures { Put out.old out.new at result (right w text.now) }
{
    let start = put_spaces(out, at, left_of(w, text.len()));
    put_bytes(out, start, text)
}
