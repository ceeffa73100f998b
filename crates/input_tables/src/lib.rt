// The tables of the inputs that are by one year, in a lent buffer.
#![tactic(auto)]

ghost use Rattle.std.specs.Prelude.{◌<◌, ◌≤◌};
ghost use Rattle.composing.specs.Text.{Put};
ghost use Rattle.figure_places.specs.Places.{added_at};
ghost use Rattle.page_figures.specs.Given.{Figured};
ghost use Rattle.input_tables.specs.Inputs.{input_table, input_tables};

use column_table::put_column_table;
use figure_places::added_at;
use table_heads::Shape;
use vectors::MOST_FIGURES;

// A table of one column: the k + 1 figures from place `start` on, with d decimals, and years from `from` on.
fn put_input_table(
    out: &mut [u8],
    at: usize,
    html: bool,
    words: &[u8],
    total: &[u8],
    from: usize,
    d: u8,
    start: usize,
    k: usize,
    figures: &[i64; MOST_FIGURES],
) -> usize
    requires { (k < 16) × ((from ≤ 100000) × ((d < 10) × ((start ≤ (added_at k).sums) × Figured k figures.now))) }
    ensures { Put out.old out.new at result (input_table html words.now total.now from d start k figures.now) }
{
    let shape = Shape {
        rows: k + 1,
        columns: 1,
        years: 0,
        from,
    };
    let starts = [start, 0, 0, 0, 0, 0, 0, 0, 0, 0, 0, 0];
    let decimals = [d, 0, 0, 0, 0, 0, 0, 0, 0, 0, 0, 0];
    put_column_table(
        out, at, html, words, total, shape, figures, &starts, &decimals, 0, 1,
    )
}

// Exposures, reporting shares, ULAE paid and indices.
pub fn put_input_tables(
    out: &mut [u8],
    at: usize,
    html: bool,
    first: usize,
    k: usize,
    figures: &[i64; MOST_FIGURES],
) -> usize
    requires { (k < 16) × ((first ≤ 65535) × Figured k figures.now) }
    ensures { Put out.old out.new at result (input_tables html first k figures.now) }
{
    let a = added_at(k);
    let reporting = put_input_table(
        out,
        at,
        html,
        b"Exposures\norigin year\nclaims\n",
        b"total",
        first,
        0,
        a.exposures,
        k,
        figures,
    );
    let ulae = put_input_table(
        out,
        reporting,
        html,
        b"Reporting shares\ndevelopment year\nshare\n",
        b"total",
        0,
        6,
        a.reporting,
        k,
        figures,
    );
    let indices = put_input_table(
        out,
        ulae,
        html,
        b"ULAE paid\npayment year\nULAE\n",
        b"total",
        first,
        0,
        a.ulae,
        k,
        figures,
    );
    put_input_table(
        out,
        indices,
        html,
        b"Indices\nfuture year\nindex\n",
        b"",
        first + k + 1,
        6,
        a.indices,
        k,
        figures,
    )
}
