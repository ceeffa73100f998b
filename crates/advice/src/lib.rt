// Questions as they are put, what is not so, and where to look first, in a lent buffer.
#![tactic(auto)]

ghost use Rattle.composing.specs.Text.{Put};
ghost use Rattle.advice.specs.Advice.{asked_text, said_text, advice_text};

use lines::put_line;

// Question n: line n of these.
pub fn put_asked(out: &mut [u8], at: usize, n: u64) -> usize
    ensures { Put out.old out.new at result (asked_text n) }
{
    put_line(
        out,
        at,
        b"No question has this number.
Is there a record, and is k at least 1?
Has the record just the length that k calls for, its filling bits zero?
Has the lent list room for all results?
Is every field in its range?
Do the reporting shares sum to 1?
Is every cumulative payment from 0 to 100 000 000 000?
Does every column and every diagonal of averages add up to at least 0, and do all to at most 10 000 000.00?
Is T_h less v_h at least 0.01 for every development year h from 1 to k?
Is every running share at least a billionth?
Is every level at most 10 000 000.00?
Is every ultimate at most 1 000 000 000 000?
Are the payments at least 1 in total, and the ULAE totals at most that?
Has the chain ladder something to develop from in every year, and is no factor above 50?
Is every completed cumulative at most 100 000 000 000?
Is the paid total of the latest payment year at least 1?
Is the divisor above 0?
Is the corrected ratio at most 1?
Is the average amount after the last year at most 10 000 000.00?
Is every average tail amount at most 50 000 000.00?
",
        n,
    )
}

// What is not so when its answer is no: line n of these.
pub fn put_said(out: &mut [u8], at: usize, n: u64) -> usize
    ensures { Put out.old out.new at result (said_text n) }
{
    put_line(
        out,
        at,
        b"No question has this number.
Nothing arrived, or the first four bits are zero.
The record is shorter or longer than its k calls for, or bits after its last field are set.
The lent list is too short.
This field is below or above what it may be, or it is a zero with a minus sign.
They sum to another number.
What was paid up to there is below zero or too large.
This column, this diagonal, or the whole triangle adds up to a number outside.
Beside this development year h the separation finds nothing left: of all averages in development years up to it, without the h earliest payment years, nothing above zero remains once its own column is taken off.
The shares up to this development year together round to nothing.
The level of this payment year is too large.
It is larger.
ULAE paid is more than the payments.
Over the origin years that have the next development year, the cumulatives at this one add up to nothing, or those at the next are more than 50 times as large.
The chain ladder's cumulative there is larger.
It is less, and the growth of the book cannot be measured.
It is 0: the weight is 1, and what is reported in the latest year, rounded down, is less than a millionth of what is paid in it.
It is larger.
It is larger.
Raised by the indices it is larger.
",
        n,
    )
}

// Where to look then: line n of these.
pub fn put_advice(out: &mut [u8], at: usize, n: u64) -> usize
    ensures { Put out.old out.new at result (advice_text n) }
{
    put_line(
        out,
        at,
        b"Look at the record.
Make a record with pack first.
The file may be cut, or be of an older layout.
Lend a longer list.
A zero paid amount with a minus sign is out of range too.
Shares are given in millionths.
A recovery larger than all payments before it, a misplaced sign, or amounts in too small a unit.
Recoveries above payments; or exposures in a larger unit than claims.
It is proved that this is a fact about the triangle of averages, rounded to hundredths, and not about the method: Taylor's equations have no exact solution in which every running share before the last, and every sum of levels from a payment year after the first to the latest, is above zero. Look first whether the latest payment year is missing or was entered as zeros, and whether averages are lost in rounding.
Beside later ones the averages of the first development year are very small, those of the first origin year aside. Begin at a later development year.
Large payments for the claims of this payment year, or a small running share: look at the exposures, and whether almost everything is paid late.
Indices are cumulative: each is against the latest year, not the year before.
Units of the two may differ.
A development year without payments, or with very small ones. Take two years together, or begin a year later.
A large factor, or large payments.
Recoveries in the latest year.
The reporting shares, and a weight of 1.
The reporting shares, the weight, and ULAE totals near the payments.
The amount is for the first origin year alone.
The first index may be very small.
",
        n,
    )
}
