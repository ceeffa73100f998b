// What is proved and how figures are rounded, in a lent buffer.
#![tactic(auto)]

ghost use Rattle.std.specs.Prelude.{◌<◌};
ghost use Rattle.composing.specs.Text.{Put};
ghost use Rattle.proof_section.specs.Proved.{shares_paragraph, proved_paragraphs, proof_section, refused_proof};

use composing::put_decimal;
use paragraphs::{put_paragraph, put_paragraph_end, put_paragraph_start, put_words};
use parts::{put_section_end, put_section_start};
use single_tables::put_limits_table;
use summary_figures::SINGLES;

// How near the shares are to the exact ones.
fn put_shares_paragraph(out: &mut [u8], at: usize, html: bool, k: usize) -> usize
    requires { k < 16 }
    ensures { Put out.old out.new at result (shares_paragraph html k) }
{
    let words = put_paragraph_start(out, at, html);
    let years = put_words(
        out,
        words,
        html,
        b"2. For every accepted record Taylor's equations are proved to have an exact solution; the printed shares sum to 1\nexactly, and the share of development year j is less than ",
    );
    let rest = put_decimal(out, years, (k + 1) as u64);
    let end = put_words(out, rest, html, b" - j billionths from the exact one.");
    put_paragraph_end(out, end, html)
}

// The paragraphs.
fn put_paragraphs(out: &mut [u8], at: usize, html: bool, k: usize) -> usize
    requires { k < 16 }
    ensures { Put out.old out.new at result (proved_paragraphs html k) }
{
    let shares = put_paragraph(
        out,
        at,
        html,
        b"1. Every figure on this page is proved, for every record that can be accepted and not for tried ones only, to be what\nthe rules define from the record; docs/PROVED.md of the package names each statement, what it rests on and what is not\ncovered.",
    );
    let amounts = put_shares_paragraph(out, shares, html, k);
    let roundings = put_paragraph(
        out,
        amounts,
        html,
        b"3. Every completed payment, tail payment, provision, ULAE reserve and total is proved to be within its allowance of that\nexact solution carried on without rounding, from the averages and the ULAE ratio as printed.",
    );
    let range = put_paragraph(
        out,
        roundings,
        html,
        b"4. Averages go to the nearest hundredth, halves to the even one, and every later step drops its fraction (57.99 becomes\n57), so that amounts mostly come out a little low; how far from the exact ones at most, the allowance says.",
    );
    put_paragraph(
        out,
        range,
        html,
        b"5. Nothing here is a range of outcomes: how well past payments foretell future ones, and whether exposures, indices and\nreporting shares are right, is for the actuary to judge.",
    )
}

// The section.
pub fn put_proof_section(
    out: &mut [u8],
    at: usize,
    html: bool,
    k: usize,
    singles: &[i64; SINGLES],
) -> usize
    requires { k < 16 }
    ensures { Put out.old out.new at result (proof_section html k singles.now) }
{
    let start = put_section_start(
        out,
        at,
        html,
        b"What is proved, and how figures are rounded",
    );
    let table = put_paragraphs(out, start, html, k);
    let end = put_limits_table(out, table, html, singles);
    put_section_end(out, end, html)
}

// The section of a refused record.
pub fn put_refused_proof(out: &mut [u8], at: usize, html: bool) -> usize
    ensures { Put out.old out.new at result (refused_proof html) }
{
    let start = put_section_start(out, at, html, b"What is proved");
    let end = put_paragraph(
        out,
        start,
        html,
        b"Every record is proved to get either all of its figures or the number of the first question, in the order in which they\nare put, whose answer is no; a refused record leaves nothing half done. The questions before this one were answered yes.",
    );
    put_section_end(out, end, html)
}
