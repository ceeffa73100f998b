// A plot of two columns of figures of the report, in a lent buffer.
#![tactic(auto)]

ghost use Rattle.std.specs.Prelude.{◌≤◌};
ghost use Rattle.composing.specs.Text.{Put};
ghost use Rattle.placing.specs.Placing.{grid, Holds};
ghost use Rattle.column_plot.specs.ColumnPlot.{placed_pair, column_plot, Drawn, Scaled};

use placing::place;
use plot::{Series, put_plot};
use table_cells::{MARK_PLAIN, MOST_PLACES, styled};
use vectors::MOST_FIGURES;

// The n figures from place a on and those from place b on, beside each other.
fn place_pair(
    values: &mut [i64; MOST_PLACES],
    styles: &mut [u8; MOST_PLACES],
    figures: &[i64; MOST_FIGURES],
    n: usize,
    a: usize,
    b: usize,
)
    requires { (n ≤ 32) × (Drawn n a figures.now × Drawn n b figures.now) }
    ensures { Holds (placed_pair n a b figures.now (grid values.old styles.old)) values.new styles.new }
{
    let style = styled(MARK_PLAIN, 0);
    place(values, styles, figures, style, 0, 2, a, n);
    place(values, styles, figures, style, 1, 2, b, n);
}

// Dark bars for the figures from place a on, light ones for those from place b on.
pub fn put_column_plot(
    out: &mut [u8],
    at: usize,
    html: bool,
    words: &[u8],
    one: u64,
    d: usize,
    first: usize,
    n: usize,
    a: usize,
    b: usize,
    figures: &[i64; MOST_FIGURES],
) -> usize
    requires { Scaled one first n × (Drawn n a figures.now × Drawn n b figures.now) }
    ensures { Put out.old out.new at result (column_plot html words.now one d first n a b figures.now) }
{
    if html {
        let mut values = [0i64; MOST_PLACES];
        let mut styles = [0u8; MOST_PLACES];
        place_pair(&mut values, &mut styles, figures, n, a, b);
        let series = Series {
            start: 0,
            stride: 2,
            bars: 2,
            split: 0,
            slots: n,
        };
        put_plot(out, at, words, one, d, first, &values, series)
    } else {
        at
    }
}
