// What is said of the averages and how well they are fitted, in a lent buffer.
#![tactic(auto)]

ghost use Rattle.composing.specs.Text.{Put};
ghost use Rattle.fit_words.specs.FitWords.{lost_payments, fit_words};

use composing::{put_bytes, put_decimal};
use fit_sums::put_fit_sums;
use parts::put_either;

// How many payments are lost, where some are.
#[tactic(auto, using(composing::proofs::Puts::put_none), unfolding(crate::specs::FitWords::lost_payments))]
fn put_lost_payments(out: &mut [u8], at: usize, html: bool, lost: u64) -> usize
    ensures { Put out.old out.new at result (lost_payments html lost) }
{
    if lost == 0 {
        at
    } else {
        let a = put_either(
            out,
            at,
            html,
            b"<p><b>Payments that are not zero and have an average of 0.00: ",
            b"Payments that are not zero and have an average of 0.00: ",
        );
        let b = put_decimal(out, a, lost);
        let c = put_either(out, b, html, b". ", b".\n");
        let d = put_bytes(
            out,
            c,
            b"The exposures are too large for the amounts, which should be given in a smaller unit.",
        );
        put_either(out, d, html, b"</b></p>\n", b"\n")
    }
}

// What stands between the two tables.
pub fn put_fit_words(
    out: &mut [u8],
    at: usize,
    html: bool,
    averages: i64,
    gaps: i64,
    lost: u64,
) -> usize
    ensures { Put out.old out.new at result (fit_words html averages gaps lost) }
{
    let end = put_fit_sums(out, at, html, averages, gaps);
    put_lost_payments(out, end, html, lost)
}
