// The settings of a hindsight run in a line.
#![tactic(auto)]

ghost use Rattle.std.specs.Prelude.{◌≡◌, not, [], ◌∷◌, map, ◌+◌, ◌≤◌, length};
ghost use Rattle.std.proofs.lemmas.List.Edits.{sets};
ghost use Rattle.rules.specs.Lists.{every};
ghost use Rattle.scanning.specs.Numbers.{is_natural, size_from};
ghost use Rattle.cells.specs.Cells.{filled};
ghost use Rattle.settings_line.specs.Settings.{most_line, most_words, wrong_word, settings_of};

use scanning::{is_natural, past, size_from, until};

// The most words of a line of 255 bytes.
pub const MOST_WORDS: usize = 128;

// Whether a piece of the line is a word and no whole number.
#[tactic(auto, using(crate::proofs::Words::words_none, crate::proofs::Words::words_one), unfolding(rules::specs::Lists::every))]
fn is_wrong(piece: &[u8]) -> bool
    ensures { result ≡ not (every is_natural (filled (piece.now ∷ []))) }
{
    !piece.is_empty() && !is_natural(piece)
}

// How many words a piece is: none where it is empty.
fn words_in(piece: &[u8]) -> usize
    ensures { result ≡ length (filled (piece.now ∷ [])) }
{
    if piece.len() == 0 { 0 } else { 1 }
}

// The place, from 1, of the first word that is no whole number; 0 where there is none.
pub fn wrong_word(line: &[u8]) -> usize
    ensures { result ≡ wrong_word line.now }
{
    let mut rest = line;
    let mut n: usize = 0;
    loop {
        let piece = until(rest, b" \t,;");
        if is_wrong(piece) {
            return n + 1;
        }
        if piece.len() == rest.len() {
            return 0;
        }
        n += words_in(piece);
        let next = past(rest, b" \t,;");
        rest = next;
    }
}

// The number of a piece that is a word, at a place of the settings, and the place after it.
fn put_word(settings: &mut [u64; MOST_WORDS], at: usize, piece: &[u8]) -> usize
    requires { at + length (filled (piece.now ∷ [])) ≤ most_words }
    ensures { (result ≡ at + length (filled (piece.now ∷ [])))
        × (settings.new ≡ sets settings.old at (map (size_from 0) (filled (piece.now ∷ [])))) }
{
    if piece.len() == 0 {
        return at;
    }
    settings[at] = size_from(0, piece);
    at + 1
}

// Puts the settings of a line, and answers how many there are.
pub fn put_settings(line: &[u8], settings: &mut [u64; MOST_WORDS]) -> usize
    requires { length line.now ≤ most_line }
    ensures { (result ≡ length (settings_of line.now))
        × ((result ≤ most_words) × (settings.new ≡ sets settings.old 0 (settings_of line.now))) }
{
    let mut rest = line;
    let mut n: usize = 0;
    loop {
        let piece = until(rest, b" \t,;");
        let end = put_word(settings, n, piece);
        if piece.len() == rest.len() {
            return end;
        }
        n = end;
        let next = past(rest, b" \t,;");
        rest = next;
    }
}
