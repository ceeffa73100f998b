// Lines of a text, each ended by a line feed: where they start and end, how long they are, and putting one.
#![tactic(auto)]

ghost use Rattle.std.specs.Prelude.{◌≡◌, ◌≤◌, length, take, drop};
ghost use Rattle.composing.specs.Text.{Put};
ghost use Rattle.lines.specs.Lines.{first_line, from_line, line_of};

use composing::put_bytes;

// Where line n of a text starts, or 0 where it has no line n.
fn line_start(text: &[u8], n: u64) -> usize
    ensures { (result ≤ length text.now) × (drop result text.now ≡ from_line n text.now text.now) }
{
    let mut left = n;
    for (i, b) in text.iter().enumerate() {
        if left == 0 {
            return i;
        }
        if *b == b'\n' {
            left -= 1;
        }
    }
    0
}

// Where the first line of a text ends.
fn line_end(text: &[u8]) -> usize
    ensures { (result ≤ length text.now) × (take result text.now ≡ first_line text.now) }
{
    text.iter().position(|b| *b == b'\n').unwrap_or(text.len())
}

// Line n of a text, or its first line where it has no line n.
pub fn put_line(out: &mut [u8], at: usize, text: &[u8], n: u64) -> usize
    ensures { Put out.old out.new at result (line_of n text.now) }
{
    let start = line_start(text, n);
    let rest = &text[start..];
    let end = line_end(rest);
    put_bytes(out, at, &rest[..end])
}

// How long line n of a text is, or its first line where it has no line n.
pub fn line_length(text: &[u8], n: u64) -> usize
    ensures { result ≡ length (line_of n text.now) }
{
    let start = line_start(text, n);
    let rest = &text[start..];
    line_end(rest)
}
