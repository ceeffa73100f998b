// The opening of the report, in a lent buffer.
#![tactic(auto)]

ghost use Rattle.std.specs.Prelude.{cond, [], ◌<◌, ◌≤◌};
ghost use Rattle.composing.specs.Text.{ascii, Put};
ghost use Rattle.parts.specs.Parts.{only};
ghost use Rattle.page_opening.specs.Opening.{units_text, years_text, valuation_text, other_year, notice, size_text, opening_text};

use composing::{put_bytes, put_decimal};
use parts::{put_either, put_only};

// The development years and the units.
fn put_units(out: &mut [u8], at: usize, k: usize) -> usize
    ensures { Put out.old out.new at result (units_text k) }
{
    let a = put_bytes(out, at, b", development years 0 to ");
    let b = put_decimal(out, a, k as u64);
    put_bytes(
        out,
        b,
        b". Amounts are whole units of account as in the record; averages and levels are amounts a claim, with two decimals.",
    )
}

// The same on the page of HTML alone.
fn put_web_units(out: &mut [u8], at: usize, html: bool, k: usize) -> usize
    ensures { Put out.old out.new at result (cond html (units_text k) []) }
{
    if html { put_units(out, at, k) } else { at }
}

// The years of the record.
fn put_years(out: &mut [u8], at: usize, html: bool, first: usize, k: usize) -> usize
    requires { (k < 16) × (first ≤ 65535) }
    ensures { Put out.old out.new at result (years_text html first k) }
{
    let a = put_either(out, at, html, b"; origin years ", b", origin years ");
    let b = put_decimal(out, a, first as u64);
    let c = put_bytes(out, b, b" to ");
    let d = put_decimal(out, c, (first + k) as u64);
    put_web_units(out, d, html, k)
}

// Those where they are known.
fn put_known_years(
    out: &mut [u8],
    at: usize,
    html: bool,
    known: bool,
    first: usize,
    k: usize,
) -> usize
    requires { (k < 16) × (first ≤ 65535) }
    ensures { Put out.old out.new at result (cond known (years_text html first k) (only html (ascii "."))) }
{
    if known {
        put_years(out, at, html, first, k)
    } else {
        put_only(out, at, html, b".")
    }
}

// The valuation year, and the years where they are known.
fn put_valuation(
    out: &mut [u8],
    at: usize,
    html: bool,
    known: bool,
    year: u64,
    first: usize,
    k: usize,
) -> usize
    requires { (k < 16) × (first ≤ 65535) }
    ensures { Put out.old out.new at result (valuation_text html known year first k) }
{
    let a = put_either(
        out,
        at,
        html,
        b"<p>Reserving report by Doonamurk 1.0. Valuation year <b>",
        b"Doonamurk 1.0, valuation year ",
    );
    let b = put_decimal(out, a, year);
    let c = put_only(out, b, html, b"</b>");
    let d = put_known_years(out, c, html, known, first, k);
    put_either(out, d, html, b"</p>\n", b"\n")
}

// That the latest payment year is not the valuation year.
fn put_other_year(out: &mut [u8], at: usize, html: bool, latest: usize) -> usize
    ensures { Put out.old out.new at result (other_year html latest) }
{
    let a = put_either(
        out,
        at,
        html,
        b"<p><b>The latest payment year, ",
        b"The latest payment year, ",
    );
    let b = put_decimal(out, a, latest as u64);
    put_either(
        out,
        b,
        html,
        b", is not the valuation year.</b></p>\n",
        b", is not the valuation year.\n",
    )
}

// That, where a first year is given and it is so.
#[tactic(auto, using(composing::proofs::Puts::put_none), unfolding(crate::specs::Opening::notice))]
fn put_notice(out: &mut [u8], at: usize, html: bool, year: u64, first: usize, k: usize) -> usize
    requires { (k < 16) × (first ≤ 65535) }
    ensures { Put out.old out.new at result (notice html year first k) }
{
    if first == 0 {
        return at;
    }
    let latest = first + k;
    if latest as u64 == year {
        return at;
    }
    put_other_year(out, at, html, latest)
}

// The same where the years are known.
fn put_known_notice(
    out: &mut [u8],
    at: usize,
    html: bool,
    known: bool,
    year: u64,
    first: usize,
    k: usize,
) -> usize
    requires { (k < 16) × (first ≤ 65535) }
    ensures { Put out.old out.new at result (cond known (notice html year first k) []) }
{
    if known {
        put_notice(out, at, html, year, first, k)
    } else {
        at
    }
}

// How many bytes the record has.
fn put_size(out: &mut [u8], at: usize, html: bool, bytes: usize) -> usize
    ensures { Put out.old out.new at result (size_text html bytes) }
{
    let a = put_either(out, at, html, b"<p>Made from one record of ", b"record of ");
    let b = put_decimal(out, a, bytes as u64);
    put_either(out, b, html, b" bytes.</p>\n", b" bytes\n")
}

// The opening of the report on a record of this many bytes in a valuation year; first is the first origin year, 0 for none, and k the last where the years are known.
pub fn put_opening(
    out: &mut [u8],
    at: usize,
    html: bool,
    known: bool,
    year: u64,
    first: usize,
    k: usize,
    bytes: usize,
) -> usize
    requires { (k < 16) × (first ≤ 65535) }
    ensures { Put out.old out.new at result (opening_text html known year first k bytes) }
{
    let a = put_valuation(out, at, html, known, year, first, k);
    let b = put_known_notice(out, a, html, known, year, first, k);
    put_size(out, b, html, bytes)
}
