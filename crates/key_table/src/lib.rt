// The table of the key figures in a lent buffer.
#![tactic(auto)]

ghost use Rattle.composing.specs.Text.{Put};
ghost use Rattle.key_table.specs.Key.{key_table};

use picked_table::{AMOUNT, HUNDREDTHS, RATIO, put_picked_table};
use summary_figures::SINGLES;
use table_heads::Shape;

// The totals of all origin years.
pub fn put_key_table(out: &mut [u8], at: usize, html: bool, singles: &[i64; SINGLES]) -> usize
    ensures { Put out.old out.new at result (key_table html singles.now) }
{
    let places = [
        10, 3, 14, 5, 4, 0, 0, 16, 11, 0, 0, 6, 13, 0, 0, 15, 0, 0, 0, 0, 1, 2, 14, 5, 30, 0, 0, 0,
        12, 0, 0, 0, 0, 0, 0, 0, 0, 0, 0, 0,
    ];
    let kinds = [
        AMOUNT, AMOUNT, AMOUNT, HUNDREDTHS, AMOUNT, 0, 0, HUNDREDTHS, AMOUNT, 0, 0, HUNDREDTHS,
        AMOUNT, 0, 0, HUNDREDTHS, AMOUNT, AMOUNT, 0, 0, AMOUNT, AMOUNT, AMOUNT, HUNDREDTHS, RATIO,
        0, 0, 0, RATIO, 0, 0, 0, 0, 0, 0, 0, 0, 0, 0, 0,
    ];
    let shape = Shape {
        rows: 8,
        columns: 4,
        years: 0,
        from: 0,
    };
    put_picked_table(
        out,
        at,
        html,
        true,
        b"Totals of all origin years\namount\nseparation\nchain ladder\ndifference\nproved to be within\n",
        b"Provision\nof it, tail payments\nULAE reserve\nBoth together\nPaid to date\nUltimate\nULAE ratio, plain\nULAE ratio, used\n",
        shape,
        singles,
        &places,
        &kinds,
    )
}
