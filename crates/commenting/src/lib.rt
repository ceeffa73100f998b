// Where the comment of a line begins.
#![tactic(auto)]

ghost use Rattle.std.specs.Prelude.{◌≡◌, ◌≤◌, length};
ghost use Rattle.commenting.specs.Comments.{comments, uncommented};

// Whether a comment begins with byte b after byte p.
fn does_comment(p: u8, b: u8) -> bool
    ensures { result ≡ comments p b }
{
    b == b'#' && p == b' '
}

// How many bytes of a line come before the comment in it.
pub fn comment_start(line: &[u8]) -> usize
    ensures { (result ≡ uncommented 0 line.now) × (result ≤ length line.now) }
{
    let mut p: u8 = 0;
    for (i, b) in line.iter().enumerate() {
        if does_comment(p, *b) {
            return i;
        }
        p = *b;
    }
    line.len()
}
