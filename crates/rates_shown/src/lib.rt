// The line of inflation that a report shows: one whose rates make the indices of the record.
#![tactic(auto)]

ghost use Rattle.std.specs.Prelude.{◌≡◌, ◌≤◌};
ghost use Rattle.rules.specs.Lists.{up_to};
ghost use Rattle.rules.specs.Questions.{first_no};
ghost use Rattle.rules.specs.Record.{figures_of};
ghost use Rattle.rules.specs.Reading.{opening_questions, field_questions};
ghost use Rattle.rules.specs.Inflation.{most_years, index_after, inflation_answer};
ghost use Rattle.rates_shown.specs.RatesShown.{same_first, makes_indices, shown_rates};

use inflation::inflation_indices;
use inflation_line::{fault_in, is_inflation, shape_of};
use opening::last_year_of;
use reading::read;
use rules::Inflation;

// Whether the first n numbers of two lists are the same.
fn same_first(a: &[u64; 16], b: &[u64; 16], n: usize) -> bool
    requires { n ≤ most_years }
    ensures { result ≡ same_first n a.now b.now }
{
    (0..n).all(|i| a[i] == b[i])
}

// The indices of a record that has passed questions 1, 2, 4 and 5.
fn indices_of(packed: &[u8]) -> [u64; 16]
    requires { (first_no (opening_questions packed.now) ≡ 0) × (first_no (field_questions packed.now) ≡ 0) }
    ensures { result ≡ (figures_of packed.now).indices }
{
    let mut exposures = [0u64; 16];
    let mut increments = [0i64; 136];
    let mut indices = [0u64; 16];
    let mut reporting = [0u64; 16];
    let mut ulae = [0u64; 16];
    read(
        packed,
        &mut exposures,
        &mut increments,
        &mut indices,
        &mut reporting,
        &mut ulae,
    );
    indices
}

// Whether rates that are accepted make these indices.
fn makes(shape: Inflation, years: usize, indices: &[u64; 16]) -> bool
    requires { (years ≤ most_years) × (inflation_answer shape years ≡ 0) }
    ensures { result ≡ same_first years indices.now (up_to (index_after shape) years) }
{
    let made = inflation_indices(shape, years as u64);
    let values = made.values;
    same_first(indices, &values, years)
}

// Whether a line makes the indices of a record that has passed questions 1, 2, 4 and 5.
fn makes_indices(packed: &[u8], line: &[u8]) -> bool
    requires { (first_no (opening_questions packed.now) ≡ 0) × (first_no (field_questions packed.now) ≡ 0) }
    ensures { result ≡ makes_indices packed.now line.now }
{
    if !is_inflation(line) {
        return false;
    }
    let years = last_year_of(packed) + 1;
    let wrong = fault_in(years as u64, line);
    if wrong.kind != 0 {
        return false;
    }
    let indices = indices_of(packed);
    makes(shape_of(line), years, &indices)
}

// The line that is shown.
pub fn shown_rates<'a>(packed: &[u8], line: &'a [u8]) -> &'a [u8]
    requires { (first_no (opening_questions packed.now) ≡ 0) × (first_no (field_questions packed.now) ≡ 0) }
    ensures { result.now ≡ shown_rates packed.now line.now }
{
    if makes_indices(packed, line) {
        return line;
    }
    &line[..0]
}
