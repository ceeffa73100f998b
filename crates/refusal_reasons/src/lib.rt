// Why question 7 or 13 says no, in words in a lent buffer.
#![tactic(auto)]

ghost use Rattle.std.specs.Prelude.{◌≡◌, false, ◌<◌, pos, get_or};
ghost use Rattle.rules.specs.Ladder.{factors_pass};
ghost use Rattle.composing.specs.Text.{Put};
ghost use Rattle.ladder.specs.Columns.{developed_in, base_in, Ladderable};
ghost use Rattle.refusal_reasons.specs.RefusalReasons.{totals_reason, development_reason};

use composing::put_bytes;
use reason_words::{put_base_reason, put_factor_reason, put_year_reason};
use reasons::{first_below, first_refused};

// The reason of question 7, from the totals of the columns and of the diagonals of the years 0 to k.
pub fn put_totals_reason(
    out: &mut [u8],
    at: usize,
    columns: &[i64; 16],
    diagonals: &[i64; 16],
    k: usize,
) -> usize
    requires { k < 16 }
    ensures { Put out.old out.new at result
        (totals_reason (λ j. get_or columns.now j (pos 0)) (λ h. get_or diagonals.now h (pos 0)) k) }
{
    let n = k + 1;
    let j = first_below(columns, k);
    if j < n {
        return put_year_reason(out, at, b"development year ", j);
    }
    let h = first_below(diagonals, k);
    if h < n {
        return put_year_reason(out, at, b"payment year ", h);
    }
    put_bytes(
        out,
        at,
        b"the averages add up to more than 1,000,000,000 hundredths",
    )
}

// The reason of question 13, from the column sums of the given cumulatives and the paid cumulatives of the years 0 to k.
pub fn put_development_reason(
    out: &mut [u8],
    at: usize,
    columns: &[u64; 16],
    paid: &[u64; 16],
    k: usize,
) -> usize
    requires { Ladderable k columns.now paid.now × (factors_pass k (developed_in columns.now) (base_in k columns.now paid.now) ≡ false) }
    ensures { Put out.old out.new at result
        (development_reason (developed_in columns.now) (base_in k columns.now paid.now) k) }
{
    let h = first_refused(columns, paid, k);
    if columns[h] - paid[k - h] < 1 {
        return put_base_reason(out, at, h);
    }
    put_factor_reason(out, at, h)
}
