// The shares by development year, in a lent buffer: a table beside a plot.
#![tactic(auto)]

ghost use Rattle.std.specs.Prelude.{◌<◌};
ghost use Rattle.composing.specs.Text.{Put};
ghost use Rattle.page_figures.specs.Given.{Figured};
ghost use Rattle.share_tables.specs.Shares.{share_table, share_plot, shares};

use column_plot::put_column_plot;
use column_table::put_column_table;
use figure_places::added_at;
use listing::starts_of;
use parts::{put_beside_end, put_beside_start};
use table_heads::Shape;
use vectors::MOST_FIGURES;

// The table.
fn put_share_table(
    out: &mut [u8],
    at: usize,
    html: bool,
    k: usize,
    figures: &[i64; MOST_FIGURES],
) -> usize
    requires { (k < 16) × Figured k figures.now }
    ensures { Put out.old out.new at result (share_table html k figures.now) }
{
    let s = starts_of(k);
    let a = added_at(k);
    let shape = Shape {
        rows: k + 1,
        columns: 2,
        years: 0,
        from: 0,
    };
    let starts = [s.shares, a.running, 0, 0, 0, 0, 0, 0, 0, 0, 0, 0];
    let decimals = [9u8, 9, 0, 0, 0, 0, 0, 0, 0, 0, 0, 0];
    put_column_table(
        out,
        at,
        html,
        b"Shares and running shares\ndevelopment year\nshare\nrunning share\n",
        b"total",
        shape,
        figures,
        &starts,
        &decimals,
        0,
        1,
    )
}

// The plot.
fn put_share_plot(
    out: &mut [u8],
    at: usize,
    html: bool,
    k: usize,
    figures: &[i64; MOST_FIGURES],
) -> usize
    requires { (k < 16) × Figured k figures.now }
    ensures { Put out.old out.new at result (share_plot html k figures.now) }
{
    let s = starts_of(k);
    let a = added_at(k);
    put_column_plot(
        out,
        at,
        html,
        b"Shares by development year\nFor each development year a dark bar, its share, and a light bar, the running share. The figures are in the table of shares.\npercent\nshare\nrunning share\n",
        10000000,
        9,
        0,
        k + 1,
        s.shares,
        a.running,
        figures,
    )
}

// Beside each other.
pub fn put_shares(
    out: &mut [u8],
    at: usize,
    html: bool,
    k: usize,
    figures: &[i64; MOST_FIGURES],
) -> usize
    requires { (k < 16) × Figured k figures.now }
    ensures { Put out.old out.new at result (shares html k figures.now) }
{
    let table = put_beside_start(out, at, html);
    let plot = put_share_table(out, table, html, k, figures);
    let end = put_share_plot(out, plot, html, k, figures);
    put_beside_end(out, end, html)
}
