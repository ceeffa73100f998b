// The bytes that separate the cells of a line, and a text from its first cell on.
#![tactic(auto)]

ghost use Rattle.std.specs.Prelude.{◌≡◌};
ghost use Rattle.separating.specs.Separators.{decides, separators, is_over, from_cell};

use scanning::{find, from, is_among};

// Whether a byte right after the label decides for its line.
pub fn does_decide(s: u8) -> bool
    ensures { result ≡ decides s }
{
    is_among(s, b",;\t")
}

// The bytes that separate cells.
#[tactic(auto, unfolding(crate::specs::Separators::separators))]
pub fn separators_of(s: u8) -> [u8; 2]
    ensures { result ≡ separators s }
{
    if does_decide(s) {
        return [s, s];
    }
    [b' ', b'\t']
}

// Whether no cell is left in a text.
#[tactic(auto, using(crate::proofs::Over::over_is))]
fn is_over(text: &[u8], s: u8) -> bool
    ensures { result ≡ is_over s text.now }
{
    let two = separators_of(s);
    let set = [two[0], two[1], b' ', b'"'];
    find(text, &set, false) == text.len()
}

// A text from its first cell on.
pub fn from_cell(text: &[u8], s: u8) -> &[u8]
    ensures { result.now ≡ from_cell s text.now }
{
    if is_over(text, s) {
        let n = text.len();
        return &text[n..];
    }
    let alone = does_decide(s);
    if alone {
        return text;
    }
    let set = separators_of(s);
    from(text, &set, false)
}
