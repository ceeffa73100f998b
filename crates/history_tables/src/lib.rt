// The tables of a history, in a lent buffer.
#![tactic(auto)]

ghost use Rattle.std.specs.Prelude.{◌≡◌, ◌+◌, ◌≤◌, ◌<◌};
ghost use Rattle.composing.specs.Text.{Put};
ghost use Rattle.history_places.specs.Places.{Windowed};
ghost use Rattle.history_grid.specs.Grid.{Rows};
ghost use Rattle.history_tables.specs.Tables.{history_table, rows_from, history_tables, share_tables, level_tables};

use history_grid::{grid_styles, grid_values};
use rules::MOST_HISTORY_ENTRIES;
use table::put_table;
use table_heads::Shape;

// The table of n positions from position `from` on.
fn put_position_table(
    out: &mut [u8],
    at: usize,
    html: bool,
    words: &[u8],
    first: usize,
    list: &[i64; MOST_HISTORY_ENTRIES],
    width: usize,
    offset: usize,
    d: u8,
    from: usize,
    n: usize,
) -> usize
    requires { Rows width from n × ((first ≤ 65535) × ((offset ≤ width + 1) × (d < 10))) }
    ensures { Put out.old out.new at result (history_table html words.now first list.now width offset d from n) }
{
    let values = grid_values(list, width, offset, from, n);
    let styles = grid_styles(list, width, d, from, n);
    let shape = Shape {
        rows: n,
        columns: width + 1,
        years: width,
        from: first + from,
    };
    put_table(
        out, at, html, false, words, b"", b"", shape, &values, &styles,
    )
}

// How many of so many positions stand in the table from position `from` on.
#[tactic(auto, unfolding(crate::specs::Tables::rows_from))]
fn rows_from(count: usize, from: usize) -> usize
    requires { from ≤ count }
    ensures { result ≡ rows_from count from }
{
    (count - from).min(16)
}

// All positions.
fn put_position_tables(
    out: &mut [u8],
    at: usize,
    html: bool,
    words: &[u8],
    first: usize,
    years: usize,
    width: usize,
    list: &[i64; MOST_HISTORY_ENTRIES],
    offset: usize,
    d: u8,
) -> usize
    requires { Windowed years width first × ((offset ≤ width + 1) × (d < 10)) }
    ensures { Put out.old out.new at result (history_tables html words.now first years width list.now offset d) }
{
    let count = years - width + 1;
    let tables = (count + 15) / 16;
    let mut end = at;
    for t in 0..tables {
        let from = 16 * t;
        end = put_position_table(
            out,
            end,
            html,
            words,
            first,
            list,
            width,
            offset,
            d,
            from,
            rows_from(count, from),
        );
    }
    end
}

// The shares.
pub fn put_share_tables(
    out: &mut [u8],
    at: usize,
    html: bool,
    first: usize,
    years: usize,
    width: usize,
    list: &[i64; MOST_HISTORY_ENTRIES],
) -> usize
    requires { Windowed years width first }
    ensures { Put out.old out.new at result (share_tables html first years width list.now) }
{
    put_position_tables(
        out,
        at,
        html,
        b"Shares by position and development year\nfirst origin year\nrefused by question\n",
        first,
        years,
        width,
        list,
        1,
        9,
    )
}

// The levels.
pub fn put_level_tables(
    out: &mut [u8],
    at: usize,
    html: bool,
    first: usize,
    years: usize,
    width: usize,
    list: &[i64; MOST_HISTORY_ENTRIES],
) -> usize
    requires { Windowed years width first }
    ensures { Put out.old out.new at result (level_tables html first years width list.now) }
{
    put_position_tables(
        out,
        at,
        html,
        b"Levels by position and payment year, counted from the first of the window\nfirst origin year\nrefused by question\n",
        first,
        years,
        width,
        list,
        1 + width,
        2,
    )
}
