// The words of a refusal of a record in a lent buffer: of questions 7 and 13 with their reason.
#![tactic(auto)]

ghost use Rattle.std.specs.Prelude.{◌≡◌, true, cond};
ghost use Rattle.composing.specs.Text.{Put};
ghost use Rattle.refusals.specs.Refusal.{PassedToSix, NoDevelopment, Refused, totals_of, development_of, words_of, refusal_of};

use composing::{put_bytes, put_decimal};
use opening::last_year_of;
use outcomes::read_again;
use refusal_reasons::{put_development_reason, put_totals_reason};
use wording::put_question;

// The reason of question 13, or of 7.
fn put_reason(out: &mut [u8], at: usize, packed: &[u8], development: bool) -> usize
    requires { PassedToSix packed.now × (development ≡ true → NoDevelopment packed.now) }
    ensures { Put out.old out.new at result (cond development (development_of packed.now) (totals_of packed.now)) }
{
    let mut increments = [0i64; 136];
    let mut reporting = [0u64; 16];
    let mut ulae = [0u64; 16];
    let mut paid = [0u64; 16];
    let mut sums = [0u64; 16];
    let mut columns = [0i64; 16];
    let mut diagonals = [0i64; 16];
    read_again(
        packed,
        &mut increments,
        &mut reporting,
        &mut ulae,
        &mut paid,
        &mut sums,
        &mut columns,
        &mut diagonals,
    );
    let k = last_year_of(packed);
    if development {
        return put_development_reason(out, at, &sums, &paid, k);
    }
    put_totals_reason(out, at, &columns, &diagonals, k)
}

// The words of a question.
fn put_words(out: &mut [u8], at: usize, packed: &[u8], answer: u64) -> usize
    requires { Refused packed.now answer }
    ensures { Put out.old out.new at result (words_of packed.now answer) }
{
    if answer == 7 {
        return put_reason(out, at, packed, false);
    }
    if answer == 13 {
        return put_reason(out, at, packed, true);
    }
    put_question(out, at, answer)
}

// The line of a refusal, from the answer of the record's run in some valuation year.
pub fn put_refused(out: &mut [u8], at: usize, packed: &[u8], answer: u64) -> usize
    requires { Refused packed.now answer }
    ensures { Put out.old out.new at result (refusal_of packed.now answer) }
{
    let number = put_bytes(out, at, b"refused ");
    let colon = put_decimal(out, number, answer);
    let words = put_bytes(out, colon, b": ");
    let end = put_words(out, words, packed, answer);
    put_bytes(out, end, b"\n")
}
