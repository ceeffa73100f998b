// Figures placed in the grid of a table.
#![tactic(auto)]

ghost use Rattle.std.specs.Prelude.{◌≡◌, ℕ, ◌+◌, ◌*◌, ◌≤◌, ◌<◌, get_or};
ghost use Rattle.rules.specs.Record.{cells};
ghost use Rattle.rules.specs.Triangle.{future_start};
ghost use Rattle.table_cells.specs.Cells.{most_places};
ghost use Rattle.vectors.specs.Vectors.{most_figures};
ghost use Rattle.placing.specs.Placing.{grid, Holds, placed, placed_as, past_rows, future_rows};

use table_cells::MOST_PLACES;
use vectors::MOST_FIGURES;

// n figures from place `start` on, at the places first, first + step, .., with the styles from place `from` of the kinds on.
fn place_kinds(
    values: &mut [i64; MOST_PLACES],
    styles: &mut [u8; MOST_PLACES],
    figures: &[i64; MOST_FIGURES],
    kinds: &[u8; 136],
    from: usize,
    first: usize,
    step: usize,
    start: usize,
    n: usize,
)
    requires { (start + n ≤ most_figures) × ((from + n ≤ 136) × ((m : ℕ) → m < n → first + m * step < most_places)) }
    ensures { Holds (placed (λ m. get_or kinds.now (from + m) 0) first step start n figures.now (grid values.old styles.old))
        values.new styles.new }
{
    for m in 0..n {
        let p = first + m * step;
        values[p] = figures[start + m];
        styles[p] = kinds[from + m];
    }
}

// The same with one style.
pub fn place(
    values: &mut [i64; MOST_PLACES],
    styles: &mut [u8; MOST_PLACES],
    figures: &[i64; MOST_FIGURES],
    style: u8,
    first: usize,
    step: usize,
    start: usize,
    n: usize,
)
    requires { (start + n ≤ most_figures) × ((n ≤ 136) × ((m : ℕ) → m < n → first + m * step < most_places)) }
    ensures { Holds (placed_as style first step start n figures.now (grid values.old styles.old)) values.new
        styles.new }
{
    let kinds = [style; 136];
    place_kinds(values, styles, figures, &kinds, 0, first, step, start, n);
}

// A triangle up to the diagonal, by row from place `start` on, in a table of c columns, with the kinds in the same order.
pub fn place_past(
    values: &mut [i64; MOST_PLACES],
    styles: &mut [u8; MOST_PLACES],
    figures: &[i64; MOST_FIGURES],
    kinds: &[u8; 136],
    c: usize,
    start: usize,
    k: usize,
)
    requires { (k < 16) × ((start + cells k ≤ most_figures) × ((k < c) × ((k + 1) * c ≤ most_places))) }
    ensures { Holds (past_rows (λ m. get_or kinds.now m 0) c start k (k + 1) figures.now (grid values.old styles.old))
        values.new styles.new }
{
    let n = k + 1;
    let mut from: usize = 0;
    for i in 0..n {
        place_kinds(
            values,
            styles,
            figures,
            kinds,
            from,
            i * c,
            1,
            start + from,
            n - i,
        );
        from += n - i;
    }
}

// The same with one style.
pub fn place_past_as(
    values: &mut [i64; MOST_PLACES],
    styles: &mut [u8; MOST_PLACES],
    figures: &[i64; MOST_FIGURES],
    style: u8,
    c: usize,
    start: usize,
    k: usize,
)
    requires { (k < 16) × ((start + cells k ≤ most_figures) × ((k < c) × ((k + 1) * c ≤ most_places))) }
    ensures { Holds (past_rows (λ m. style) c start k (k + 1) figures.now (grid values.old styles.old)) values.new
        styles.new }
{
    let kinds = [style; 136];
    place_past(values, styles, figures, &kinds, c, start, k);
}

// A triangle past the diagonal, with one style.
pub fn place_future(
    values: &mut [i64; MOST_PLACES],
    styles: &mut [u8; MOST_PLACES],
    figures: &[i64; MOST_FIGURES],
    style: u8,
    c: usize,
    start: usize,
    k: usize,
)
    requires { (k < 16) × ((start + future_start (k + 1) ≤ most_figures) × ((k < c) × ((k + 1) * c ≤ most_places))) }
    ensures { Holds (future_rows style c start k (k + 1) figures.now (grid values.old styles.old)) values.new
        styles.new }
{
    let n = k + 1;
    let mut from = start;
    for i in 0..n {
        place(values, styles, figures, style, i * c + (n - i), 1, from, i);
        from += i;
    }
}
