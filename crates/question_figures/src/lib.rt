// A table of the figures that a question has found, in a lent buffer; of a field, and of a development year.
#![tactic(auto)]

ghost use Rattle.std.specs.Prelude.{◌≡◌, ◌≤◌};
ghost use Rattle.composing.specs.Text.{Put};
ghost use Rattle.question_figures.specs.QuestionFigures.{figure_table, field_style, field_table, sums_table, development_table};

use finding::Finding;
use picked_table::{AMOUNT, MILLIONTHS};
use table::put_table;
use table_cells::MOST_PLACES;
use table_heads::Shape;

// A table of so many of the three figures, each in its style.
pub fn put_figures(
    out: &mut [u8],
    at: usize,
    html: bool,
    words: &[u8],
    labels: &[u8],
    rows: usize,
    a: u8,
    b: u8,
    c: u8,
    f: Finding,
) -> usize
    requires { rows ≤ 3 }
    ensures { Put out.old out.new at result (figure_table html words.now labels.now rows a b c f) }
{
    let one = f.one;
    let two = f.two;
    let three = f.three;
    let mut values = [0i64; MOST_PLACES];
    values[0] = one;
    values[1] = two;
    values[2] = three;
    let mut styles = [0u8; MOST_PLACES];
    styles[0] = a;
    styles[1] = b;
    styles[2] = c;
    let shape = Shape {
        rows,
        columns: 1,
        years: 0,
        from: 0,
    };
    put_table(
        out, at, html, false, words, labels, b"", shape, &values, &styles,
    )
}

// The style of a field of this place: indices, reporting shares and the weight are millionths.
#[tactic(auto, using(std::proofs::lemmas::Bool::Decides::nat_tests), unfolding(crate::specs::QuestionFigures::field_style, table_cells::specs::Cells::styled))]
fn field_style(place: u64) -> u8
    ensures { result ≡ field_style place }
{
    match place {
        7 | 8 | 9 => MILLIONTHS,
        _ => AMOUNT,
    }
}

// A field, and its range.
pub fn put_field_table(out: &mut [u8], at: usize, html: bool, f: Finding) -> usize
    ensures { Put out.old out.new at result (field_table html f) }
{
    let style = field_style(f.place);
    put_figures(
        out,
        at,
        html,
        b"The question's figures\nfigure\nvalue\n",
        b"The field\nThe least it may be\nThe largest it may be\n",
        3,
        style,
        style,
        style,
        f,
    )
}

// The sums of a development year and of the next, and as many of these three figures as are known.
fn put_sums(out: &mut [u8], at: usize, html: bool, rows: usize, f: Finding) -> usize
    requires { rows ≤ 3 }
    ensures { Put out.old out.new at result (sums_table html rows f) }
{
    put_figures(
        out,
        at,
        html,
        b"The question's figures\nfigure\nvalue\n",
        b"Sum at this development year, over origin years that have the next\nSum at the next, over the same origin years\nDevelopment factor\n",
        rows,
        AMOUNT,
        AMOUNT,
        MILLIONTHS,
        f,
    )
}

// There is a factor where the first sum is above 0.
pub fn put_development_table(out: &mut [u8], at: usize, html: bool, f: Finding) -> usize
    ensures { Put out.old out.new at result (development_table html f) }
{
    let sum = f.one;
    if sum < 1 {
        return put_sums(out, at, html, 2, f);
    }
    put_sums(out, at, html, 3, f)
}
