// What is said of a year of which question 7 or 13 says no, in a lent buffer.
#![tactic(auto)]

ghost use Rattle.std.specs.Prelude.{◌<◌};
ghost use Rattle.composing.specs.Text.{Put};
ghost use Rattle.reason_words.specs.ReasonWords.{year_reason, base_reason, factor_reason};

use composing::{put_bytes, put_decimal};

// The total of a year is below 0.
pub fn put_year_reason(out: &mut [u8], at: usize, kind: &[u8], y: usize) -> usize
    ensures { Put out.old out.new at result (year_reason kind.now y) }
{
    let a = put_bytes(out, at, b"the averages of ");
    let b = put_bytes(out, a, kind);
    let c = put_decimal(out, b, y as u64);
    put_bytes(out, c, b" add up to less than 0")
}

// B of year h is below 1: nothing is paid to develop from.
pub fn put_base_reason(out: &mut [u8], at: usize, h: usize) -> usize
    ensures { Put out.old out.new at result (base_reason h) }
{
    let a = put_bytes(
        out,
        at,
        b"the chain ladder has nothing to develop from: up to development year ",
    );
    let b = put_decimal(out, a, h as u64);
    put_bytes(
        out,
        b,
        b" nothing is paid for the origin years that have a later one",
    )
}

// The development factor of year h is above the most.
pub fn put_factor_reason(out: &mut [u8], at: usize, h: usize) -> usize
    requires { h < 16 }
    ensures { Put out.old out.new at result (factor_reason h) }
{
    let a = put_bytes(
        out,
        at,
        b"the chain ladder's development factor from development year ",
    );
    let b = put_decimal(out, a, h as u64);
    let c = put_bytes(out, b, b" to ");
    let d = put_decimal(out, c, (h + 1) as u64);
    put_bytes(out, d, b" is above 50")
}
