// Parts of a text, and numbers.
#![tactic(auto)]

ghost use Rattle.std.specs.Prelude.{◌≡◌, ◌≤◌, ◌<◌, ◌^◌, length};
ghost use Rattle.scanning.specs.Parts.{among, before, until, from, past, meets, same_text_of};
ghost use Rattle.scanning.specs.Numbers.{is_digit, is_natural, is_number, with_digit, size_from, whole_of};

// Whether a byte is one of these.
#[tactic(auto, using(crate::proofs::Library::among_is_any))]
pub fn is_among(b: u8, set: &[u8]) -> bool
    ensures { result ≡ among set.now b }
{
    set.contains(&b)
}

// Whether that is as wanted.
fn is_met(b: u8, set: &[u8], wanted: bool) -> bool
    ensures { result ≡ meets wanted set.now b }
{
    if wanted {
        return is_among(b, set);
    }
    !is_among(b, set)
}

// How many bytes come before the first that is one of these, or, where that is not wanted, before the first that is not.
pub fn find(text: &[u8], set: &[u8], wanted: bool) -> usize
    ensures { (result ≡ before (meets wanted set.now) text.now) × (result ≤ length text.now) }
{
    text.iter()
        .position(|b| is_met(*b, set, wanted))
        .unwrap_or(text.len())
}

// A text up to the first byte that is one of these.
pub fn until<'a>(text: &'a [u8], set: &[u8]) -> &'a [u8]
    ensures { result.now ≡ «until» (among set.now) text.now }
{
    let e = find(text, set, true);
    &text[..e]
}

// A text from the first byte on that is one of these, or that is not.
pub fn from<'a>(text: &'a [u8], set: &[u8], wanted: bool) -> &'a [u8]
    ensures { result.now ≡ «from» (meets wanted set.now) text.now }
{
    let e = find(text, set, wanted);
    &text[e..]
}

// A text past the first byte that is one of these.
pub fn past<'a>(text: &'a [u8], set: &[u8]) -> &'a [u8]
    ensures { result.now ≡ «past» (among set.now) text.now }
{
    let e = find(text, set, true);
    if e < text.len() {
        &text[e + 1..]
    } else {
        &text[e..]
    }
}

// Whether two texts are the same.
#[tactic(auto, using(crate::proofs::Library::same_is_eq))]
pub fn same_text(a: &[u8], b: &[u8]) -> bool
    ensures { result ≡ same_text_of a.now b.now }
{
    a == b
}

fn is_digit(b: u8) -> bool
    ensures { result ≡ is_digit b }
{
    matches!(b, b'0'..=b'9')
}

// Whether a word is digits, at least one.
#[tactic(auto, unfolding(crate::specs::Numbers::is_natural))]
pub fn is_natural(word: &[u8]) -> bool
    ensures { result ≡ is_natural word.now }
{
    !word.is_empty() && word.iter().all(|b| is_digit(*b))
}

// Whether a word is a whole number.
#[tactic(auto, unfolding(crate::specs::Numbers::is_number))]
pub fn is_number(word: &[u8]) -> bool
    ensures { result ≡ is_number word.now }
{
    match word.strip_prefix(b"-") {
        Some(digits) => is_natural(digits),
        None => is_natural(word),
    }
}

// The number so far with one digit more.
#[tactic(auto, using(crate::proofs::Numbers::digit_more, crate::proofs::Numbers::digit_stops))]
fn with_digit(n: u64, b: u8) -> u64
    requires { n < 2 ^ 60 }
    ensures { (result ≡ with_digit n b) × (result < 2 ^ 60) }
{
    if n >= 100_000_000_000_000_000 {
        return n;
    }
    if b < b'0' {
        return 10 * n;
    }
    10 * n + u64::from(b - b'0')
}

// The number that digits go on to after one.
pub fn size_from(start: u64, digits: &[u8]) -> u64
    requires { start < 2 ^ 60 }
    ensures { (result ≡ size_from start digits.now) × (result < 2 ^ 60) }
{
    let mut size = start;
    for b in digits {
        size = with_digit(size, *b);
    }
    size
}

// The value of a whole number.
pub fn number_of(word: &[u8]) -> i64
    ensures { result ≡ whole_of word.now }
{
    match word.strip_prefix(b"-") {
        Some(digits) => -(size_from(0, digits) as i64),
        None => size_from(0, word) as i64,
    }
}
