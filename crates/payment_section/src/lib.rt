// The section of the payments, paid and completed.
#![tactic(auto)]

ghost use Rattle.std.specs.Prelude.{◌≤◌, ◌<◌};
ghost use Rattle.composing.specs.Text.{Put};
ghost use Rattle.placing.specs.Placing.{blank, Holds};
ghost use Rattle.page_figures.specs.Given.{Figured};
ghost use Rattle.payment_section.specs.Payments.{payment_grid, payment_table, payments_section};

use figure_places::added_at;
use listing::starts_of;
use parts::{put_only, put_section_end, put_section_start};
use table_cells::{MARK_FUTURE, MARK_PLAIN, MOST_PLACES, styled};
use triangle_tables::{place_column, place_square, put_summed_table};
use vectors::MOST_FIGURES;

// The grid.
fn fill_payments(
    values: &mut [i64; MOST_PLACES],
    styles: &mut [u8; MOST_PLACES],
    figures: &[i64; MOST_FIGURES],
    k: usize,
)
    requires { (k < 16) × Holds blank values.old styles.old }
    ensures { Holds (payment_grid k figures.now) values.new styles.new }
{
    let starts = starts_of(k);
    let added = added_at(k);
    let ahead = styled(MARK_FUTURE, 0);
    let paid = styled(MARK_PLAIN, 0);
    let c = k + 3;
    place_square(
        values,
        styles,
        figures,
        c,
        added.increments,
        starts.payments,
        k,
    );
    place_column(values, styles, figures, ahead, k + 1, c, starts.tails, k);
    place_column(values, styles, figures, paid, k + 2, c, added.ultimates, k);
}

// The table.
fn put_payment_table(
    out: &mut [u8],
    at: usize,
    html: bool,
    first: usize,
    k: usize,
    figures: &[i64; MOST_FIGURES],
) -> usize
    requires { (k < 16) × ((first ≤ 65535) × Figured k figures.now) }
    ensures { Put out.old out.new at result (payment_table html first k figures.now) }
{
    let mut values = [0i64; MOST_PLACES];
    let mut styles = [0u8; MOST_PLACES];
    fill_payments(&mut values, &mut styles, figures, k);
    put_summed_table(
        out,
        at,
        html,
        b"Payments, by origin and development year\norigin year\ntail\nultimate\n",
        b"total",
        first,
        k,
        k + 3,
        k + 1,
        &mut values,
        &mut styles,
    )
}

// The section.
pub fn put_payment_section(
    out: &mut [u8],
    at: usize,
    html: bool,
    first: usize,
    k: usize,
    figures: &[i64; MOST_FIGURES],
) -> usize
    requires { (k < 16) × ((first ≤ 65535) × Figured k figures.now) }
    ensures { Put out.old out.new at result (payments_section html first k figures.now) }
{
    let paragraph = put_section_start(out, at, html, b"Payments, paid and completed");
    let table = put_only(
        out,
        paragraph,
        html,
        b"<p>Shaded: completed and tail payments, still to be made; their sum is the origin year's provision. Unshaded: paid, as given.</p>\n",
    );
    let end = put_payment_table(out, table, html, first, k, figures);
    put_section_end(out, end, html)
}
