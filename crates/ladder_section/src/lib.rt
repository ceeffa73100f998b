// The section of the chain ladder.
#![tactic(auto)]

ghost use Rattle.std.specs.Prelude.{◌≤◌, ◌<◌};
ghost use Rattle.composing.specs.Text.{Put};
ghost use Rattle.placing.specs.Placing.{blank, Holds};
ghost use Rattle.page_figures.specs.Given.{Figured};
ghost use Rattle.ladder_section.specs.Ladder.{ladder_grid, ladder_table, ladder_section};

use figure_places::added_at;
use listing::starts_of;
use parts::{put_only, put_section_end, put_section_start};
use placing::place;
use table_cells::{MARK_PLAIN, MOST_PLACES, styled};
use triangle_tables::{place_square, put_triangle_table};
use vectors::MOST_FIGURES;

// The grid.
fn fill_ladder(
    values: &mut [i64; MOST_PLACES],
    styles: &mut [u8; MOST_PLACES],
    figures: &[i64; MOST_FIGURES],
    k: usize,
)
    requires { (k < 16) × Holds blank values.old styles.old }
    ensures { Holds (ladder_grid k figures.now) values.new styles.new }
{
    let starts = starts_of(k);
    let added = added_at(k);
    let style = styled(MARK_PLAIN, 6);
    let n = k + 1;
    place_square(
        values,
        styles,
        figures,
        n,
        added.cumulatives,
        starts.completed,
        k,
    );
    place(values, styles, figures, style, n * n, 1, starts.factors, k);
}

// The table.
fn put_ladder_table(
    out: &mut [u8],
    at: usize,
    html: bool,
    first: usize,
    k: usize,
    figures: &[i64; MOST_FIGURES],
) -> usize
    requires { (k < 16) × (first ≤ 65535) }
    ensures { Put out.old out.new at result (ladder_table html first k figures.now) }
{
    let mut values = [0i64; MOST_PLACES];
    let mut styles = [0u8; MOST_PLACES];
    fill_ladder(&mut values, &mut styles, figures, k);
    put_triangle_table(
        out,
        at,
        html,
        b"Cumulatives, by origin and development year\norigin year\n",
        b"factor",
        first,
        k,
        k + 1,
        &values,
        &styles,
    )
}

// The section.
pub fn put_ladder_section(
    out: &mut [u8],
    at: usize,
    html: bool,
    first: usize,
    k: usize,
    figures: &[i64; MOST_FIGURES],
) -> usize
    requires { (k < 16) × ((first ≤ 65535) × Figured k figures.now) }
    ensures { Put out.old out.new at result (ladder_section html first k figures.now) }
{
    let paragraph = put_section_start(out, at, html, b"Chain ladder");
    let table = put_only(
        out,
        paragraph,
        html,
        b"<p>Cumulative payments. Unshaded: paid up to the development year. Shaded: completed, each the one before it times the factor in the last row under that one, rounded down. The last column is the chain ladder's ultimate. The chain ladder is proved to follow its rule, roundings included; no allowance is stated for it.</p>\n",
    );
    let end = put_ladder_table(out, table, html, first, k, figures);
    put_section_end(out, end, html)
}
