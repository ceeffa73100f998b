// Which of the two an input is, a text or a record.
#![tactic(auto)]

ghost use Rattle.std.specs.Prelude.{◌≡◌};
ghost use Rattle.rules.specs.Lists.{every};
ghost use Rattle.kinds.specs.Kinds.{text_byte, marked, is_text};

// Whether a byte is one of a text.
fn is_text_byte(b: u8) -> bool
    ensures { result ≡ text_byte b }
{
    matches!(b, b'\t' | b'\n' | b'\r' | b' '..=b'~')
}

// Whether every byte is one of a text.
fn is_plain(bytes: &[u8]) -> bool
    ensures { result ≡ every text_byte bytes.now }
{
    bytes.iter().all(|b| is_text_byte(*b))
}

// Whether an input starts with the mark of a text.
#[tactic(auto, unfolding(crate::specs::Kinds::marked))]
pub fn is_marked(input: &[u8]) -> bool
    ensures { result ≡ marked input.now }
{
    matches!(input, [0xef, 0xbb, 0xbf, ..])
}

// Whether an input is a text.
#[tactic(auto, using(crate::proofs::Mark::mark_room, crate::proofs::Mark::marked_is), unfolding(crate::specs::Kinds::is_text))]
pub fn is_text(input: &[u8]) -> bool
    ensures { result ≡ is_text input.now }
{
    if is_marked(input) {
        return is_plain(&input[3..]);
    }
    !input.is_empty() && is_plain(input)
}
