// The section of the rates of a line of inflation that make the indices, in a lent buffer.
#![tactic(auto)]

ghost use Rattle.std.specs.Prelude.{◌≡◌, ◌<◌, ◌≤◌, take};
ghost use Rattle.composing.specs.Text.{Put};
ghost use Rattle.rates_section.specs.RatesSection.{most_typed, typed_rate, flat_words, rate_words, fading_words, shock_year, shock_words, shape_words, rates_paragraph, rates_section};

use cells::cell_at;
use composing::put_decimal;
use inflation_line::shape_at;
use paragraphs::{put_paragraph_end, put_paragraph_start, put_words};
use parts::{put_section_end, put_section_start};
use scanning::size_from;
use titles::put_text;

// The most bytes of a rate.
const MOST_TYPED: usize = 17;

// A word up to the most bytes of a rate.
fn cut(word: &[u8]) -> &[u8]
    ensures { result.now ≡ take most_typed word.now }
{
    if word.len() <= MOST_TYPED {
        return word;
    }
    &word[..MOST_TYPED]
}

// Number n of a line, a rate, as it was typed.
fn put_typed(out: &mut [u8], at: usize, html: bool, line: &[u8], n: usize) -> usize
    ensures { Put out.old out.new at result (typed_rate html line.now n) }
{
    let word = cell_at(line, n);
    put_text(out, at, html, cut(word))
}

// One flat rate.
fn put_flat(out: &mut [u8], at: usize, html: bool, line: &[u8]) -> usize
    ensures { Put out.old out.new at result (flat_words html line.now) }
{
    let rate = put_words(
        out,
        at,
        html,
        b"The indices are made from one flat rate of inflation, ",
    );
    put_typed(out, rate, html, line, 1)
}

// The rate of the other shapes.
fn put_rate(out: &mut [u8], at: usize, html: bool, line: &[u8]) -> usize
    ensures { Put out.old out.new at result (rate_words html line.now) }
{
    let rate = put_words(
        out,
        at,
        html,
        b"The indices are made from a rate of inflation of ",
    );
    put_typed(out, rate, html, line, 1)
}

// One that moves toward a long-run rate.
fn put_fading(out: &mut [u8], at: usize, html: bool, line: &[u8]) -> usize
    ensures { Put out.old out.new at result (fading_words html line.now) }
{
    let toward = put_rate(out, at, html, line);
    let long_run = put_words(
        out,
        toward,
        html,
        b" that moves halfway each year toward a long-run rate of ",
    );
    put_typed(out, long_run, html, line, 2)
}

// The year of a shock as the table of the indices calls it.
fn shock_year(first: usize, k: usize, line: &[u8]) -> u64
    requires { (k < 16) × (first ≤ 65535) }
    ensures { result ≡ shock_year first k line.now }
{
    let year = size_from(0, cell_at(line, 3));
    (first + k) as u64 + year
}

// One in a year with another in the others.
fn put_shock(out: &mut [u8], at: usize, html: bool, first: usize, k: usize, line: &[u8]) -> usize
    requires { (k < 16) × (first ≤ 65535) }
    ensures { Put out.old out.new at result (shock_words html first k line.now) }
{
    let in_year = put_rate(out, at, html, line);
    let year = put_words(out, in_year, html, b" in future year ");
    let and_of = put_decimal(out, year, shock_year(first, k, line));
    let other = put_words(out, and_of, html, b" and of ");
    let others = put_typed(out, other, html, line, 2);
    put_words(out, others, html, b" in the others")
}

// The words of a line's shape.
fn put_shape(
    out: &mut [u8],
    at: usize,
    html: bool,
    first: usize,
    k: usize,
    line: &[u8],
    place: usize,
) -> usize
    requires { (k < 16) × (first ≤ 65535) }
    ensures { Put out.old out.new at result (shape_words html first k line.now place) }
{
    if place == 0 {
        return put_flat(out, at, html, line);
    }
    if place == 1 {
        return put_fading(out, at, html, line);
    }
    put_shock(out, at, html, first, k, line)
}

// The paragraph.
fn put_rates_paragraph(
    out: &mut [u8],
    at: usize,
    html: bool,
    first: usize,
    k: usize,
    line: &[u8],
) -> usize
    requires { (k < 16) × (first ≤ 65535) }
    ensures { Put out.old out.new at result (rates_paragraph html first k line.now) }
{
    let place = shape_at(line);
    let shape = put_paragraph_start(out, at, html);
    let nearest = put_shape(out, shape, html, first, k, line, place);
    let end = put_words(
        out,
        nearest,
        html,
        b".\nEach is the whole number nearest to the path in millionths, a half going up.",
    );
    put_paragraph_end(out, end, html)
}

// The section, none without a line.
pub fn put_rates_section(
    out: &mut [u8],
    at: usize,
    html: bool,
    first: usize,
    k: usize,
    line: &[u8],
) -> usize
    requires { (k < 16) × (first ≤ 65535) }
    ensures { Put out.old out.new at result (rates_section html first k line.now) }
{
    if line.len() == 0 {
        return at;
    }
    let start = put_section_start(out, at, html, b"Inflation");
    let end = put_rates_paragraph(out, start, html, first, k, line);
    put_section_end(out, end, html)
}
