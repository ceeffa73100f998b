// Refusals in words: the number of a question, and what is not so.
#![tactic(auto)]

ghost use Rattle.composing.specs.Text.{Put};
ghost use Rattle.wording.specs.Wording.{question_text, refusal_text};

use composing::{put_bytes, put_decimal};
use lines::put_line;

// What is not so where question n's answer is no: line n of these.
pub fn put_question(out: &mut [u8], at: usize, n: u64) -> usize
    ensures { Put out.old out.new at result (question_text n) }
{
    put_line(
        out,
        at,
        b"no question has this number
there is no record, or k is not from 1 to 15
a length is not what k calls for, or a filling bit is not zero
the lent list is too short
a field is out of its range
the reporting shares do not sum to 1,000,000
a given cumulative C_ij is below 0 or above 10^11
a column or a diagonal of the averages adds up to less than 0, or all averages to more than 1,000,000,000 hundredths
the triangle has no exact solution of the kind the method needs: beside some development year h nothing is left, T_h - v_h is below 1
a running share A_h, the shares up to a year together, is below a billionth
a level l_h is above 1,000,000,000 hundredths a claim
the ultimate X_i of an origin year is above 10^12
the payments add up to less than 1, or the ULAE totals to more than the payments
the chain ladder has nothing to develop from in some year, or a development factor above 50
a cumulative that the chain ladder completes is above 10^11
what is paid in the latest payment year, Y, is below 1, and from valuation year 2027 on the ULAE ratio is corrected by it
the divisor of the ULAE ratio under growth, M - w + w * B / Y, from valuation year 2027 on, is 0
the ULAE ratio corrected for growth, from valuation year 2027 on, is above 1
the average of what is still to be paid for year 0 after the last year is above 1,000,000,000 hundredths a claim
an average of what is still to be paid after the last year, carried to some year by the indices, is above 5,000,000,000 hundredths a claim
",
        n,
    )
}

// The line of a refusal.
pub fn put_refusal(out: &mut [u8], at: usize, n: u64) -> usize
    ensures { Put out.old out.new at result (refusal_text n) }
{
    let number = put_bytes(out, at, b"refused ");
    let colon = put_decimal(out, number, n);
    let words = put_bytes(out, colon, b": ");
    let end = put_question(out, words, n);
    put_bytes(out, end, b"\n")
}
