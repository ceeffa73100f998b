// Every year of which question 8 says no, as a section of the page that the question refuses, in a lent buffer.
#![tactic(auto)]

ghost use Rattle.std.specs.Prelude.{◌≡◌, true, ◌+◌, ◌*◌, ◌≤◌, ◌<◌, pos, length, get_or};
ghost use Rattle.std.proofs.lemmas.List.Edits.{sets};
ghost use Rattle.rules.specs.Lists.{up_to};
ghost use Rattle.rules.specs.Questions.{first_no};
ghost use Rattle.rules.specs.Record.{figures_of};
ghost use Rattle.rules.specs.Reading.{opening_questions, field_questions};
ghost use Rattle.rules.specs.Triangle.{cumulatives_pass};
ghost use Rattle.rules.specs.Results.{square_of};
ghost use Rattle.composing.specs.Text.{Put};
ghost use Rattle.totals.specs.CellSizes.{TotalsSmall};
ghost use Rattle.triangle_findings.specs.TriangleFindings.{corner_by};
ghost use Rattle.rest_years.specs.RestYears.{CornersSmall, left_of, refused_years, label_where, row_where, values_where, year_labels, all_values, year_table, year_section, rest_section};

use composing::{put_byte, put_decimal};
use paragraphs::put_paragraph;
use parts::{put_section_end, put_section_start};
use picked_table::HUNDREDTHS;
use signed_sums::subtract;
use table::put_table;
use table_cells::MOST_PLACES;
use table_heads::Shape;
use triangle_findings::{next_corner, totals_again};

// T_h of the years 0 to 15 from the totals of the columns and of the diagonals: T of year 0 is its column.
fn fill_corner_totals(columns: &[i64; 16], diagonals: &[i64; 16], corners: &mut [i64; 16])
    requires { TotalsSmall columns.now × TotalsSmall diagonals.now }
    ensures { corners.new
        ≡ sets corners.old 0
        (up_to (corner_by (λ j. get_or columns.now j (pos 0)) (λ h. get_or diagonals.now h (pos 0))) 16) }
{
    let mut t = columns[0];
    for m in 0..15 {
        corners[m] = t;
        t = next_corner(t, diagonals[m], columns[m + 1]);
    }
    corners[15] = t;
}

// T_h − v_h.
fn left_of(corners: &[i64; 16], columns: &[i64; 16], h: usize) -> i64
    requires { (h < 16) × (CornersSmall corners.now × TotalsSmall columns.now) }
    ensures { result ≡ left_of corners.now columns.now h }
{
    subtract(corners[h], columns[h])
}

// The label of year h, a line, where question 8 says no of it.
fn put_label(
    labels: &mut [u8],
    at: usize,
    corners: &[i64; 16],
    columns: &[i64; 16],
    h: usize,
) -> usize
    requires { (h < 16) × (CornersSmall corners.now × TotalsSmall columns.now) }
    ensures { Put labels.old labels.new at result (label_where corners.now columns.now h) }
{
    if left_of(corners, columns, h) < 1 {
        let a = put_decimal(labels, at, h as u64);
        return put_byte(labels, a, b'\n');
    }
    at
}

// The labels of all such years.
fn put_labels(labels: &mut [u8], corners: &[i64; 16], columns: &[i64; 16], k: usize) -> usize
    requires { (k < 16) × (CornersSmall corners.now × TotalsSmall columns.now) }
    ensures { Put labels.old labels.new 0 result (year_labels corners.now columns.now k) }
{
    let mut at: usize = 0;
    for m in 0..k {
        at = put_label(labels, at, corners, columns, m + 1);
    }
    at
}

// The values of year h in the row after so many, where question 8 says no of it; answers how many rows there are then.
fn set_row(
    values: &mut [i64; MOST_PLACES],
    rows: usize,
    corners: &[i64; 16],
    columns: &[i64; 16],
    h: usize,
) -> usize
    requires { (rows ≤ 100) × ((h < 16) × (CornersSmall corners.now × TotalsSmall columns.now)) }
    ensures { (result ≡ rows + row_where corners.now columns.now h)
        × (values.new ≡ sets values.old (3 * rows) (values_where corners.now columns.now h)) }
{
    let left = left_of(corners, columns, h);
    if left < 1 {
        let at = 3 * rows;
        values[at] = corners[h];
        values[at + 1] = columns[h];
        values[at + 2] = left;
        return rows + 1;
    }
    rows
}

// The values of all such years, and how many there are.
fn fill_values(
    values: &mut [i64; MOST_PLACES],
    corners: &[i64; 16],
    columns: &[i64; 16],
    k: usize,
) -> usize
    requires { (k < 16) × (CornersSmall corners.now × TotalsSmall columns.now) }
    ensures { (result ≡ length (refused_years corners.now columns.now k))
        × (values.new ≡ sets values.old 0 (all_values corners.now columns.now k)) }
{
    let mut rows: usize = 0;
    for m in 0..k {
        rows = set_row(values, rows, corners, columns, m + 1);
    }
    rows
}

// Their table.
fn put_year_table(
    out: &mut [u8],
    at: usize,
    html: bool,
    corners: &[i64; 16],
    columns: &[i64; 16],
    k: usize,
) -> usize
    requires { (k < 16) × (CornersSmall corners.now × TotalsSmall columns.now) }
    ensures { Put out.old out.new at result (year_table html corners.now columns.now k) }
{
    let mut labels = [0u8; 48];
    put_labels(&mut labels, corners, columns, k);
    let mut values = [0i64; MOST_PLACES];
    let rows = fill_values(&mut values, corners, columns, k);
    let styles = [HUNDREDTHS; MOST_PLACES];
    let shape = Shape {
        rows,
        columns: 3,
        years: 0,
        from: 0,
    };
    put_table(
        out,
        at,
        html,
        false,
        b"Development years of which question 8 says no\ndevelopment year\nT_h\nv_h\nT_h less v_h\n",
        &labels,
        b"",
        shape,
        &values,
        &styles,
    )
}

// The section.
fn put_year_section(
    out: &mut [u8],
    at: usize,
    html: bool,
    corners: &[i64; 16],
    columns: &[i64; 16],
    k: usize,
) -> usize
    requires { (k < 16) × (CornersSmall corners.now × TotalsSmall columns.now) }
    ensures { Put out.old out.new at result (year_section html corners.now columns.now k) }
{
    let a = put_section_start(out, at, html, b"Every development year with nothing left");
    let b = put_paragraph(
        out,
        a,
        html,
        b"T_h less v_h is the total of the averages in the development years before h, without those of the h earliest payment
years. In an exact solution it is the running share up to the year before h times the sum of the levels without the h
earliest: where it is not above zero, at least one of the two is not. Below is every development year h of which
question 8 says no.",
    );
    let c = put_year_table(out, b, html, corners, columns, k);
    put_section_end(out, c, html)
}

// Of the averages of a record that has passed questions 1, 2, 4, 5 and 6.
pub fn put_rest_section(out: &mut [u8], at: usize, html: bool, packed: &[u8]) -> usize
    requires { (first_no (opening_questions packed.now) ≡ 0)
        × ((first_no (field_questions packed.now) ≡ 0)
        × (cumulatives_pass (figures_of packed.now).k (figures_of packed.now).increments ≡ true)) }
    ensures { Put out.old out.new at result (rest_section html (square_of (figures_of packed.now)) (figures_of packed.now).k) }
{
    let mut columns = [0i64; 16];
    let mut diagonals = [0i64; 16];
    let k = totals_again(packed, &mut columns, &mut diagonals);
    let mut corners = [0i64; 16];
    fill_corner_totals(&columns, &diagonals, &mut corners);
    put_year_section(out, at, html, &corners, &columns, k)
}
