// Text in a lent buffer: each function puts its text from a place on, as far as the buffer goes, and answers the place after it.
#![tactic(auto)]

ghost use Rattle.std.specs.Prelude.{◌≡◌, [], ◌∷◌, ◌+◌, ◌-◌, ◌<◌, min};
ghost use Rattle.composing.specs.Text.{digit, decimal, spaces, Put};

// One byte.
pub fn put_byte(out: &mut [u8], at: usize, b: u8) -> usize
    ensures { Put out.old out.new at result (b ∷ []) }
{
    if at < out.len() {
        out[at] = b;
        at + 1
    } else {
        at
    }
}

// Where n bytes that are put from a place on end, as far as a buffer of this length goes.
fn end_of(length: usize, at: usize, n: usize) -> usize
    ensures { result ≡ at + min n (length - at) }
{
    at + n.min(length.saturating_sub(at))
}

// A text.
#[tactic(auto, using(crate::proofs::Puts::put_piece, crate::proofs::Puts::put_no_room))]
pub fn put_bytes(out: &mut [u8], at: usize, text: &[u8]) -> usize
    ensures { Put out.old out.new at result text.now }
{
    let end = end_of(out.len(), at, text.len());
    if at < end {
        out[at..end].copy_from_slice(&text[..end - at]);
    }
    end
}

// n spaces.
pub fn put_spaces(out: &mut [u8], at: usize, n: usize) -> usize
    ensures { Put out.old out.new at result (spaces n) }
{
    let end = end_of(out.len(), at, n);
    if at < end {
        out[at..end].fill(b' ');
    }
    end
}

// The byte of a digit.
pub fn digit_of(d: u64) -> u8
    requires { d < 10 }
    ensures { result ≡ digit d }
{
    b'0' + d as u8
}

// n in decimal.
pub fn put_decimal(out: &mut [u8], at: usize, n: u64) -> usize
    ensures { Put out.old out.new at result (decimal n) }
{
    if n < 10 {
        put_byte(out, at, digit_of(n))
    } else {
        let end = put_decimal(out, at, n / 10);
        put_byte(out, end, digit_of(n % 10))
    }
}
