// The section of the report that has the record itself, in a lent buffer.
#![tactic(auto)]

ghost use Rattle.std.specs.Prelude.{cond, []};
ghost use Rattle.composing.specs.Text.{Put};
ghost use Rattle.record_section.specs.RecordSection.{digits_text, record_section};

use composing::{put_bytes, put_decimal};
use hexadecimal::put_record_digits;
use parts::{put_only, put_section_end, put_section_start};

// What the digits are.
fn put_digits_text(out: &mut [u8], at: usize, bytes: usize) -> usize
    ensures { Put out.old out.new at result (digits_text bytes) }
{
    let a = put_bytes(
        out,
        at,
        b"<p>All inputs but the valuation year, title, first year and any rates of inflation are these ",
    );
    let b = put_decimal(out, a, bytes as u64);
    put_bytes(
        out,
        b,
        b" bytes, in hexadecimal; the report can be made again from them.</p>\n<p><code>",
    )
}

// The same on the page of HTML alone.
fn put_web_digits_text(out: &mut [u8], at: usize, html: bool, bytes: usize) -> usize
    ensures { Put out.old out.new at result (cond html (digits_text bytes) []) }
{
    if html {
        put_digits_text(out, at, bytes)
    } else {
        at
    }
}

// The section.
pub fn put_record_section(out: &mut [u8], at: usize, html: bool, packed: &[u8]) -> usize
    ensures { Put out.old out.new at result (record_section html packed.now) }
{
    let a = put_section_start(out, at, html, b"The record");
    let b = put_web_digits_text(out, a, html, packed.len());
    let c = put_record_digits(out, b, html, packed);
    let d = put_only(out, c, html, b"</code></p>\n");
    put_section_end(out, d, html)
}
