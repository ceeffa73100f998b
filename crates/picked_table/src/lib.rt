// A table whose cells are picked from the report's single figures.
#![tactic(auto)]

ghost use Rattle.std.specs.Prelude.{◌≡◌, true, ◌-◌, ◌≤◌};
ghost use Rattle.rules.specs.Lists.{every, between};
ghost use Rattle.composing.specs.Text.{Put};
ghost use Rattle.summary_figures.specs.Summary.{singles};
ghost use Rattle.placing.specs.Placing.{grid, Holds};
ghost use Rattle.picked_table.specs.Picked.{most_picked, picked, picked_table, Picks};

use summary_figures::SINGLES;
use table::put_table;
use table_cells::MOST_PLACES;
use table_heads::Shape;

// How many cells such a table has at most.
pub const MOST_PICKED: usize = 40;

// The styles of amounts, hundredths, millionths, ratios and years; a blank cell has 0.
pub const AMOUNT: u8 = 1;

pub const HUNDREDTHS: u8 = 3;

pub const MILLIONTHS: u8 = 7;

pub const RATIO: u8 = 15;

pub const YEAR: u8 = 21;

// n cells picked.
fn pick(
    values: &mut [i64; MOST_PLACES],
    styles: &mut [u8; MOST_PLACES],
    figures: &[i64; SINGLES],
    places: &[u8; MOST_PICKED],
    kinds: &[u8; MOST_PICKED],
    n: usize,
)
    requires { (n ≤ most_picked) × (every (between 0 (singles - 1)) places.now ≡ true) }
    ensures { Holds (picked figures.now places.now kinds.now n (grid values.old styles.old))
        values.new styles.new }
{
    for (p, place) in places[..n].iter().enumerate() {
        let place = usize::from(*place);
        values[p] = figures[place];
        styles[p] = kinds[p];
    }
}

// The table.
pub fn put_picked_table(
    out: &mut [u8],
    at: usize,
    html: bool,
    key: bool,
    words: &[u8],
    labels: &[u8],
    shape: Shape,
    singles: &[i64; SINGLES],
    places: &[u8; MOST_PICKED],
    kinds: &[u8; MOST_PICKED],
) -> usize
    requires { Picks shape places.now }
    ensures { Put out.old out.new at result
        (picked_table html key words.now labels.now shape singles.now places.now kinds.now) }
{
    let mut values = [0i64; MOST_PLACES];
    let mut styles = [0u8; MOST_PLACES];
    pick(
        &mut values,
        &mut styles,
        singles,
        places,
        kinds,
        shape.rows * shape.columns,
    );
    put_table(
        out, at, html, key, words, labels, b"", shape, &values, &styles,
    )
}
