// Texts of the user in a lent buffer, escaped on the HTML page.
#![tactic(auto)]

ghost use Rattle.std.specs.Prelude.{◌≡◌};
ghost use Rattle.composing.specs.Text.{Put};
ghost use Rattle.titles.specs.Titles.{plain_byte, escaped_byte, byte_in, text_in, title_in};

use composing::{put_byte, put_bytes};

// A byte, a space for one that is no sign.
#[tactic(auto, unfolding(crate::specs::Titles::plain_byte))]
fn plain_byte(b: u8) -> u8
    ensures { result ≡ plain_byte b }
{
    if b < b' ' || b == b'\x7f' { b' ' } else { b }
}

// A byte of the HTML page.
#[tactic(auto, unfolding(crate::specs::Titles::escaped_byte))]
fn put_escaped(out: &mut [u8], at: usize, b: u8) -> usize
    ensures { Put out.old out.new at result (escaped_byte b) }
{
    match b {
        b'&' => put_bytes(out, at, b"&amp;"),
        b'<' => put_bytes(out, at, b"&lt;"),
        b'>' => put_bytes(out, at, b"&gt;"),
        _ => put_byte(out, at, plain_byte(b)),
    }
}

// A byte of either page.
fn put_sign(out: &mut [u8], at: usize, html: bool, b: u8) -> usize
    ensures { Put out.old out.new at result (byte_in html b) }
{
    if html {
        put_escaped(out, at, b)
    } else {
        put_byte(out, at, plain_byte(b))
    }
}

// A text of the user.
pub fn put_text(out: &mut [u8], at: usize, html: bool, text: &[u8]) -> usize
    ensures { Put out.old out.new at result (text_in html text.now) }
{
    let mut end = at;
    for b in text {
        end = put_sign(out, end, html, *b);
    }
    end
}

// The title, or `Reserving report` where none is given.
#[tactic(auto, using(crate::proofs::Titles::no_title, crate::proofs::Titles::some_title, composing::proofs::Puts::put_same), unfolding(crate::specs::Titles::title_in))]
pub fn put_title(out: &mut [u8], at: usize, html: bool, title: &[u8]) -> usize
    ensures { Put out.old out.new at result (title_in html title.now) }
{
    if title.len() == 0 {
        put_bytes(out, at, b"Reserving report")
    } else {
        put_text(out, at, html, title)
    }
}
