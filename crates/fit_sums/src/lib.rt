// The sums of the averages and of the gaps in words, in a lent buffer.
#![tactic(auto)]

ghost use Rattle.composing.specs.Text.{Put};
ghost use Rattle.fit_sums.specs.FitSums.{hundredths, fit_sums};

use fixed_text::put_fixed;
use numerals::put_number;
use parts::put_either;

// Hundredths, with two decimals.
fn put_hundredths(out: &mut [u8], at: usize, html: bool, z: i64) -> usize
    ensures { Put out.old out.new at result (hundredths html z) }
{
    if html {
        put_number(out, at, 2, z)
    } else {
        put_fixed(out, at, 2, z)
    }
}

// The sum of the averages and that of the sizes of the gaps.
pub fn put_fit_sums(out: &mut [u8], at: usize, html: bool, averages: i64, gaps: i64) -> usize
    ensures { Put out.old out.new at result (fit_sums html averages gaps) }
{
    let a = put_either(
        out,
        at,
        html,
        b"<p>All averages add up to ",
        b"\nAll averages add up to ",
    );
    let b = put_hundredths(out, a, html, averages);
    let c = put_either(
        out,
        b,
        html,
        b" a claim, the sizes of observed less fitted to <b>",
        b" a claim, the sizes of observed less fitted to ",
    );
    let d = put_hundredths(out, c, html, gaps);
    put_either(out, d, html, b"</b>.</p>\n", b".\n")
}
