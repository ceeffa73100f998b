// The section of the ULAE reserve in a lent buffer.
#![tactic(auto)]

ghost use Rattle.std.specs.Prelude.{◌≡◌, ◌≤◌};
ghost use Rattle.composing.specs.Text.{Put};
ghost use Rattle.parts.specs.Parts.{only};
ghost use Rattle.expense_section.specs.Expense.{used_text, rows_shown, ratio_table, expense_section};

use parts::{put_only, put_section_end, put_section_start};
use picked_table::{AMOUNT, MILLIONTHS, RATIO, put_picked_table};
use summary_figures::SINGLES;
use table_heads::Shape;

// How many rows the table has.
fn rows_shown(corrected: bool) -> usize
    ensures { (result ≡ rows_shown corrected) × (result ≤ 7) }
{
    if corrected { 7 } else { 3 }
}

// The end of the paragraph.
fn put_used(out: &mut [u8], at: usize, html: bool, corrected: bool) -> usize
    ensures { Put out.old out.new at result (only html (used_text corrected)) }
{
    if corrected {
        put_only(
            out,
            at,
            html,
            b"From valuation year 2027 the ratio is corrected for growth; earlier valuations use the plain one.</p>\n",
        )
    } else {
        put_only(
            out,
            at,
            html,
            b"The plain ratio is used; from valuation year 2027 on it is corrected for growth.</p>\n",
        )
    }
}

// The table of the ratio.
fn put_ratio_table(
    out: &mut [u8],
    at: usize,
    html: bool,
    corrected: bool,
    singles: &[i64; SINGLES],
) -> usize
    ensures { Put out.old out.new at result (ratio_table html corrected singles.now) }
{
    let places = [
        7, 0, 30, 31, 32, 33, 12, 0, 0, 0, 0, 0, 0, 0, 0, 0, 0, 0, 0, 0, 0, 0, 0, 0, 0, 0, 0, 0, 0,
        0, 0, 0, 0, 0, 0, 0, 0, 0, 0, 0,
    ];
    let kinds = [
        AMOUNT, AMOUNT, RATIO, AMOUNT, AMOUNT, MILLIONTHS, RATIO, 0, 0, 0, 0, 0, 0, 0, 0, 0, 0, 0,
        0, 0, 0, 0, 0, 0, 0, 0, 0, 0, 0, 0, 0, 0, 0, 0, 0, 0, 0, 0, 0, 0,
    ];
    let shape = Shape {
        rows: rows_shown(corrected),
        columns: 1,
        years: 0,
        from: 0,
    };
    put_picked_table(
        out,
        at,
        html,
        false,
        b"The ratio\nfigure\nvalue\n",
        b"ULAE paid, all payment years\nPaid, all payment years\nRatio, plain: the first by the second\nReported in the latest year, at ultimate cost\nPaid in the latest year\nDivisor for growth\nRatio, corrected: plain by divisor, used\n",
        shape,
        singles,
        &places,
        &kinds,
    )
}

// The section.
pub fn put_expense_section(
    out: &mut [u8],
    at: usize,
    html: bool,
    corrected: bool,
    singles: &[i64; SINGLES],
) -> usize
    ensures { Put out.old out.new at result (expense_section html corrected singles.now) }
{
    let method = put_section_start(out, at, html, b"ULAE reserve");
    let used = put_only(
        out,
        method,
        html,
        b"<p>The New York method takes a ratio of unallocated expenses to payments and applies it, by the weight, to what is not reported and, by the rest of the weight, to the provision. ",
    );
    let table = put_used(out, used, html, corrected);
    let end = put_ratio_table(out, table, html, corrected, singles);
    put_section_end(out, end, html)
}
