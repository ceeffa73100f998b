// The section of a refused record, in a lent buffer.
#![tactic(auto)]

ghost use Rattle.std.specs.Prelude.{◌≤◌, ◌<◌};
ghost use Rattle.composing.specs.Text.{Put};
ghost use Rattle.refused_section.specs.RefusedSection.{place_words, at_place, refused_heading, refused_section};

use advice::{put_advice, put_asked, put_said};
use composing::{put_bytes, put_decimal};
use finding::{Finding, NOWHERE};
use finding_table::put_finding_table;
use parts::{put_either, put_section_end};
use place_words::put_place;

// The words of the place.
fn put_place_words(out: &mut [u8], at: usize, html: bool, first: usize, f: Finding) -> usize
    requires { (first ≤ 65535) × (f.row < 16) }
    ensures { Put out.old out.new at result (place_words html first f) }
{
    let a = put_either(out, at, html, b" at <b>", b" at ");
    let b = put_place(out, a, first, f.place, f.row, f.column);
    put_either(out, b, html, b"</b>", b"")
}

// The same where there is a place.
fn put_at_place(out: &mut [u8], at: usize, html: bool, first: usize, f: Finding) -> usize
    requires { (first ≤ 65535) × (f.row < 16) }
    ensures { Put out.old out.new at result (at_place html first f) }
{
    if f.place == NOWHERE {
        return at;
    }
    put_place_words(out, at, html, first, f)
}

// The number of the question and the place.
fn put_refused_heading(
    out: &mut [u8],
    at: usize,
    html: bool,
    first: usize,
    n: u64,
    f: Finding,
) -> usize
    requires { (first ≤ 65535) × (f.row < 16) }
    ensures { Put out.old out.new at result (refused_heading html first n f) }
{
    let a = put_either(
        out,
        at,
        html,
        b"<section>\n<h2>Refused: question ",
        b"\nRefused: question ",
    );
    let b = put_decimal(out, a, n);
    let c = put_either(
        out,
        b,
        html,
        b"</h2>\n<p><b>No figures are given for this record.</b> Question ",
        b"\n\nNo figures are given for this record. Question ",
    );
    let d = put_decimal(out, c, n);
    let e = put_bytes(out, d, b" was answered no");
    let g = put_at_place(out, e, html, first, f);
    put_either(out, g, html, b":</p>\n<p><b>", b":\n")
}

// The section of a record that question n refuses, with what it found.
pub fn put_refused_section(
    out: &mut [u8],
    at: usize,
    html: bool,
    first: usize,
    n: u64,
    f: Finding,
) -> usize
    requires { (first ≤ 65535) × (f.row < 16) }
    ensures { Put out.old out.new at result (refused_section html first n f) }
{
    let a = put_refused_heading(out, at, html, first, n, f);
    let b = put_asked(out, a, n);
    let c = put_either(out, b, html, b"</b></p>\n<p>", b"\n");
    let d = put_said(out, c, n);
    let e = put_either(out, d, html, b"</p>\n", b"\n");
    let g = put_finding_table(out, e, html, n, f);
    let h = put_either(out, g, html, b"<p>", b"\n");
    let i = put_advice(out, h, n);
    let j = put_either(out, i, html, b"</p>\n", b"\n");
    put_section_end(out, j, html)
}
