// The tables of a hindsight run, in a lent buffer.
#![tactic(auto)]

ghost use Rattle.std.specs.Prelude.{◌≤◌};
ghost use Rattle.composing.specs.Text.{Put};
ghost use Rattle.hindsight_cells.specs.Cells.{Shown};
ghost use Rattle.hindsight_tables.specs.Tables.{grid_table, settings_rows, steps_rows, gaps_rows};

use hindsight_cells::{GAPS_TABLE, SETTINGS_TABLE, STEPS_TABLE, columns_of, rows_of};
use hindsight_grid::{grid_styles, grid_values};
use hindsight_heads::{MOST_HEADS, put_steps_words};
use rules::{MOST_HINDSIGHT, MOST_SETTINGS};
use table::put_table;
use table_heads::Shape;

// Table t.
fn put_grid(
    out: &mut [u8],
    at: usize,
    html: bool,
    words: &[u8],
    years: usize,
    label: usize,
    list: &[i64; MOST_HINDSIGHT],
    settings: &[u64; MOST_SETTINGS],
    k: usize,
    n: usize,
    a: usize,
    t: usize,
) -> usize
    requires { Shown list.now settings.now k n a × (label ≤ 100000) }
    ensures { Put out.old out.new at result (grid_table html words.now years label list.now settings.now k n a t) }
{
    let values = grid_values(list, settings, k, n, a, t);
    let styles = grid_styles(list, k, n, t);
    let shape = Shape {
        rows: rows_of(t, k, n),
        columns: columns_of(t, k, n),
        years: years,
        from: label,
    };
    put_table(
        out, at, html, false, words, b"", b"", shape, &values, &styles,
    )
}

// The settings.
pub fn put_settings_rows(
    out: &mut [u8],
    at: usize,
    html: bool,
    list: &[i64; MOST_HINDSIGHT],
    settings: &[u64; MOST_SETTINGS],
    k: usize,
    n: usize,
) -> usize
    requires { Shown list.now settings.now k n 0 }
    ensures { Put out.old out.new at result (settings_rows html list.now settings.now k n) }
{
    put_grid(
        out,
        at,
        html,
        b"Settings tried\nsetting\nindex\nsum of absolute gaps\n",
        0,
        1,
        list,
        settings,
        k,
        n,
        0,
        SETTINGS_TABLE,
    )
}

// The sums of the steps by setting.
pub fn put_steps_rows(
    out: &mut [u8],
    at: usize,
    html: bool,
    first: usize,
    list: &[i64; MOST_HINDSIGHT],
    settings: &[u64; MOST_SETTINGS],
    k: usize,
    n: usize,
) -> usize
    requires { Shown list.now settings.now k n 0 × (first ≤ 65535) }
    ensures { Put out.old out.new at result (steps_rows html first list.now settings.now k n) }
{
    let mut words = [0u8; MOST_HEADS];
    let end = put_steps_words(&mut words, 0, n);
    put_grid(
        out,
        at,
        html,
        &words[..end],
        0,
        first + 2,
        list,
        settings,
        k,
        n,
        0,
        STEPS_TABLE,
    )
}

// The gaps with setting a.
pub fn put_gaps_rows(
    out: &mut [u8],
    at: usize,
    html: bool,
    first: usize,
    list: &[i64; MOST_HINDSIGHT],
    settings: &[u64; MOST_SETTINGS],
    k: usize,
    n: usize,
    a: usize,
) -> usize
    requires { Shown list.now settings.now k n a × (first ≤ 65535) }
    ensures { Put out.old out.new at result (gaps_rows html first list.now settings.now k n a) }
{
    put_grid(
        out,
        at,
        html,
        b"Gaps by origin and development year: payment minus forecast\norigin year\n",
        k,
        first + 1,
        list,
        settings,
        k,
        n,
        a,
        GAPS_TABLE,
    )
}
