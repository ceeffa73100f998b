// The table of the figures where a question says no, in a lent buffer.
#![tactic(auto)]

ghost use Rattle.composing.specs.Text.{Put};
ghost use Rattle.finding_table.specs.FindingTable.{record_table, triangle_table, reserve_table, finding_table};

use finding::Finding;
use picked_table::{AMOUNT, HUNDREDTHS, MILLIONTHS, RATIO};
use question_figures::{put_development_table, put_field_table, put_figures};

// The style of shares, nine decimals and no mark.
const BILLIONTHS: u8 = 10;

// The figures of a question about the record.
fn put_record_table(out: &mut [u8], at: usize, html: bool, n: u64, f: Finding) -> usize
    ensures { Put out.old out.new at result (record_table html n f) }
{
    match n {
        1 => put_figures(
            out,
            at,
            html,
            b"The question's figures\nfigure\nvalue\n",
            b"Bytes given\n",
            1,
            AMOUNT,
            0,
            0,
            f,
        ),
        2 => put_figures(
            out,
            at,
            html,
            b"The question's figures\nfigure\nvalue\n",
            b"Bytes given\nBytes due for this k\n",
            2,
            AMOUNT,
            AMOUNT,
            0,
            f,
        ),
        4 => put_field_table(out, at, html, f),
        5 => put_figures(
            out,
            at,
            html,
            b"The question's figures\nfigure\nvalue\n",
            b"Sum of the reporting shares\nWhat it should be\n",
            2,
            MILLIONTHS,
            MILLIONTHS,
            0,
            f,
        ),
        _ => at,
    }
}

// Of one about the triangle and its separation.
fn put_triangle_table(out: &mut [u8], at: usize, html: bool, n: u64, f: Finding) -> usize
    ensures { Put out.old out.new at result (triangle_table html n f) }
{
    match n {
        6 => put_figures(
            out,
            at,
            html,
            b"The question's figures\nfigure\nvalue\n",
            b"Cumulative payment\n",
            1,
            AMOUNT,
            0,
            0,
            f,
        ),
        13 => put_development_table(out, at, html, f),
        7 => put_figures(
            out,
            at,
            html,
            b"The question's figures\nfigure\na claim\n",
            b"Sum of averages\n",
            1,
            HUNDREDTHS,
            0,
            0,
            f,
        ),
        8 => put_figures(
            out,
            at,
            html,
            b"The question's figures\nfigure\na claim\n",
            b"T_h: averages in columns 0 to h, without the h earliest payment years\nv_h: averages in column h\nT_h less v_h\n",
            3,
            HUNDREDTHS,
            HUNDREDTHS,
            HUNDREDTHS,
            f,
        ),
        9 => put_figures(
            out,
            at,
            html,
            b"The question's figures\nfigure\nvalue\n",
            b"Running share\n",
            1,
            BILLIONTHS,
            0,
            0,
            f,
        ),
        10 => put_figures(
            out,
            at,
            html,
            b"The question's figures\nfigure\nvalue\n",
            b"Diagonal, a claim\nRunning share\nLevel, a claim\n",
            3,
            HUNDREDTHS,
            BILLIONTHS,
            HUNDREDTHS,
            f,
        ),
        _ => at,
    }
}

// Of one about the reserves.
fn put_reserve_table(out: &mut [u8], at: usize, html: bool, n: u64, f: Finding) -> usize
    ensures { Put out.old out.new at result (reserve_table html n f) }
{
    match n {
        18 => put_figures(
            out,
            at,
            html,
            b"The question's figures\nfigure\nvalue\n",
            b"Still to be paid after the last development year\nClaims\nAverage, a claim\n",
            3,
            AMOUNT,
            AMOUNT,
            HUNDREDTHS,
            f,
        ),
        19 => put_figures(
            out,
            at,
            html,
            b"The question's figures\nfigure\nvalue\n",
            b"Average tail amount, a claim\nIndex of its tail payment\nIndex of the first future year\n",
            3,
            HUNDREDTHS,
            MILLIONTHS,
            MILLIONTHS,
            f,
        ),
        11 => put_figures(
            out,
            at,
            html,
            b"The question's figures\nfigure\nvalue\n",
            b"Paid\nProvision\nUltimate\n",
            3,
            AMOUNT,
            AMOUNT,
            AMOUNT,
            f,
        ),
        12 => put_figures(
            out,
            at,
            html,
            b"The question's figures\nfigure\nvalue\n",
            b"Payments in total\nULAE paid in total\n",
            2,
            AMOUNT,
            AMOUNT,
            0,
            f,
        ),
        15 => put_figures(
            out,
            at,
            html,
            b"The question's figures\nfigure\nvalue\n",
            b"Y: paid in this payment year\n",
            1,
            AMOUNT,
            0,
            0,
            f,
        ),
        16 => put_figures(
            out,
            at,
            html,
            b"The question's figures\nfigure\nvalue\n",
            b"Reporting weight\nB: reported in the latest year, at its ultimate cost\nY: paid in the latest payment year\n",
            3,
            MILLIONTHS,
            AMOUNT,
            AMOUNT,
            f,
        ),
        17 => put_figures(
            out,
            at,
            html,
            b"The question's figures\nfigure\nvalue\n",
            b"Plain ULAE ratio\nDivisor\nCorrected ULAE ratio\n",
            3,
            RATIO,
            MILLIONTHS,
            RATIO,
            f,
        ),
        14 => put_figures(
            out,
            at,
            html,
            b"The question's figures\nfigure\nvalue\n",
            b"Cumulative before it\nDevelopment factor\nCumulative\n",
            3,
            AMOUNT,
            MILLIONTHS,
            AMOUNT,
            f,
        ),
        _ => at,
    }
}

// The figures of question n, which is one of these.
pub fn put_finding_table(out: &mut [u8], at: usize, html: bool, n: u64, f: Finding) -> usize
    ensures { Put out.old out.new at result (finding_table html n f) }
{
    let a = put_record_table(out, at, html, n, f);
    let b = put_triangle_table(out, a, html, n, f);
    put_reserve_table(out, b, html, n, f)
}
