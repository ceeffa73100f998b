// The words of the table of steps of a hindsight run, in a lent buffer.
#![tactic(auto)]

ghost use Rattle.std.specs.Prelude.{◌≤◌};
ghost use Rattle.rules.specs.Lists.{up_to, joined};
ghost use Rattle.rules.specs.Hindsight.{most_settings};
ghost use Rattle.composing.specs.Text.{Put};
ghost use Rattle.hindsight_heads.specs.Heads.{setting_head, steps_words};

use composing::{put_bytes, put_decimal};

// More bytes than the words have.
pub const MOST_HEADS: usize = 512;

// The head of setting a.
fn put_setting_head(out: &mut [u8], at: usize, a: usize) -> usize
    requires { a ≤ most_settings }
    ensures { Put out.old out.new at result (setting_head a) }
{
    let b = put_bytes(out, at, b"setting ");
    let c = put_decimal(out, b, (a + 1) as u64);
    put_bytes(out, c, b"\n")
}

// The heads of n settings.
fn put_setting_heads(out: &mut [u8], at: usize, n: usize) -> usize
    requires { n ≤ most_settings }
    ensures { Put out.old out.new at result (joined (up_to setting_head n)) }
{
    let mut end = at;
    for a in 0..n {
        end = put_setting_head(out, end, a);
    }
    end
}

// The words.
pub fn put_steps_words(out: &mut [u8], at: usize, n: usize) -> usize
    requires { n ≤ most_settings }
    ensures { Put out.old out.new at result (steps_words n) }
{
    let a = put_bytes(
        out,
        at,
        b"Sums of absolute gaps by forecast payment year and setting\npayment year\n",
    );
    let b = put_setting_heads(out, a, n);
    put_bytes(out, b, b"marked by question\n")
}
