// Tables of single figures in a lent buffer.
#![tactic(auto)]

ghost use Rattle.composing.specs.Text.{Put};
ghost use Rattle.single_tables.specs.Singles.{single_table, limits_table};

use picked_table::{AMOUNT, HUNDREDTHS, MILLIONTHS, YEAR, put_picked_table};
use summary_figures::SINGLES;
use table_heads::Shape;

// What is given.
pub fn put_single_table(out: &mut [u8], at: usize, html: bool, singles: &[i64; SINGLES]) -> usize
    ensures { Put out.old out.new at result (single_table html singles.now) }
{
    let places = [
        26, 27, 28, 0, 0, 0, 0, 0, 0, 0, 0, 0, 0, 0, 0, 0, 0, 0, 0, 0, 0, 0, 0, 0, 0, 0, 0, 0, 0,
        0, 0, 0, 0, 0, 0, 0, 0, 0, 0, 0,
    ];
    let kinds = [
        YEAR, MILLIONTHS, AMOUNT, 0, 0, 0, 0, 0, 0, 0, 0, 0, 0, 0, 0, 0, 0, 0, 0, 0, 0, 0, 0, 0, 0,
        0, 0, 0, 0, 0, 0, 0, 0, 0, 0, 0, 0, 0, 0, 0,
    ];
    let shape = Shape {
        rows: 3,
        columns: 1,
        years: 0,
        from: 0,
    };
    put_picked_table(
        out,
        at,
        html,
        false,
        b"Single figures\nfigure\nvalue\n",
        b"Valuation year\nReporting weight\nStill to be paid for the first origin year after the last development year\n",
        shape,
        singles,
        &places,
        &kinds,
    )
}

// The limits of the package beside the largest figures here.
pub fn put_limits_table(out: &mut [u8], at: usize, html: bool, singles: &[i64; SINGLES]) -> usize
    ensures { Put out.old out.new at result (limits_table html singles.now) }
{
    let places = [
        34, 29, 35, 17, 36, 18, 37, 23, 38, 9, 39, 19, 40, 20, 41, 21, 42, 22, 0, 0, 0, 0, 0, 0, 0,
        0, 0, 0, 0, 0, 0, 0, 0, 0, 0, 0, 0, 0, 0, 0,
    ];
    let kinds = [
        AMOUNT, AMOUNT, AMOUNT, AMOUNT, AMOUNT, AMOUNT, AMOUNT, AMOUNT, HUNDREDTHS, HUNDREDTHS,
        HUNDREDTHS, HUNDREDTHS, MILLIONTHS, MILLIONTHS, AMOUNT, AMOUNT, MILLIONTHS, MILLIONTHS, 0,
        0, 0, 0, 0, 0, 0, 0, 0, 0, 0, 0, 0, 0, 0, 0, 0, 0, 0, 0, 0, 0,
    ];
    let shape = Shape {
        rows: 9,
        columns: 2,
        years: 0,
        from: 0,
    };
    put_picked_table(
        out,
        at,
        html,
        false,
        b"Limits of the package\nlimit\nlargest accepted\nlargest here\n",
        b"Origin years\nClaims of an origin year\nSize of a paid increment\nCumulative payment, completed ones too\nAll averages together, a claim\nLevel, a claim\nIndex\nUltimate of an origin year\nDevelopment factor\n",
        shape,
        singles,
        &places,
        &kinds,
    )
}
