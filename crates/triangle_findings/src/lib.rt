// Where questions 7 and 8 say no of a record, and the figures there.
#![tactic(auto)]

ghost use Rattle.std.specs.Prelude.{◌≡◌, true, false, ◌+◌, ◌≤◌, ◌<◌, pos, nat_abs, ◌+ℤ◌, ◌-ℤ◌, get_or};
ghost use Rattle.rules.specs.Lists.{every, below};
ghost use Rattle.rules.specs.Questions.{first_no};
ghost use Rattle.rules.specs.Record.{figures_of};
ghost use Rattle.rules.specs.Reading.{opening_questions, field_questions};
ghost use Rattle.rules.specs.Triangle.{sum_to, cumulatives_pass};
ghost use Rattle.rules.specs.Results.{most_entries, square_of};
ghost use Rattle.rules.specs.Engine.{run_answer};
ghost use Rattle.totals.specs.CellSizes.{TotalsSmall};
ghost use Rattle.totals.specs.Summed.{Summed};
ghost use Rattle.triangle_findings.specs.TriangleFindings.{totals_found, totals_finding, rest_passes_of, rest_found, rest_finding, corner_by, most_corner};

use finding::{DEVELOPMENT_YEAR, Finding, NOWHERE, PAYMENT_YEAR};
use opening::last_year_of;
use outcomes::read_again;
use reasons::first_below;
use signed_sums::{add, subtract, sum_along};

// The totals of the columns and diagonals of the averages of a record that has passed questions 1, 2, 4, 5 and 6 go into their lists; answers k.
pub fn totals_again(packed: &[u8], columns: &mut [i64; 16], diagonals: &mut [i64; 16]) -> usize
    requires { (first_no (opening_questions packed.now) ≡ 0)
        × ((first_no (field_questions packed.now) ≡ 0)
        × (cumulatives_pass (figures_of packed.now).k (figures_of packed.now).increments ≡ true)) }
    ensures { (result ≡ (figures_of packed.now).k)
        × ((result < 16)
        × Summed (square_of (figures_of packed.now)) (figures_of packed.now).k columns.new diagonals.new) }
{
    let mut increments = [0i64; 136];
    let mut reporting = [0u64; 16];
    let mut ulae = [0u64; 16];
    let mut paid = [0u64; 16];
    let mut sums = [0u64; 16];
    read_again(
        packed,
        &mut increments,
        &mut reporting,
        &mut ulae,
        &mut paid,
        &mut sums,
        columns,
        diagonals,
    );
    last_year_of(packed)
}

// The finding of question 7 by the totals of the columns and of the diagonals of the years 0 to k.
fn totals_found(columns: &[i64; 16], diagonals: &[i64; 16], k: usize) -> Finding
    requires { (k < 16) × TotalsSmall columns.now }
    ensures { (result
        ≡ totals_found (λ j. get_or columns.now j (pos 0)) (λ h. get_or diagonals.now h (pos 0))
        (sum_to (λ j. get_or columns.now j (pos 0)) (k + 1)) k)
        × ((result.row < 16) × (result.column < 16)) }
{
    let n = k + 1;
    let j = first_below(columns, k);
    if j < n {
        return Finding {
            place: DEVELOPMENT_YEAR,
            row: 0,
            column: j,
            one: columns[j],
            two: 0,
            three: 0,
        };
    }
    let h = first_below(diagonals, k);
    if h < n {
        return Finding {
            place: PAYMENT_YEAR,
            row: h,
            column: 0,
            one: diagonals[h],
            two: 0,
            three: 0,
        };
    }
    Finding {
        place: NOWHERE,
        row: 0,
        column: 0,
        one: sum_along(columns, 0, 1, n),
        two: 0,
        three: 0,
    }
}

// The finding of question 7.
pub fn totals_finding(year: u64, packed: &[u8]) -> Finding
    requires { run_answer year packed.now most_entries ≡ 7 }
    ensures { (result ≡ totals_finding (square_of (figures_of packed.now)) (figures_of packed.now).k)
        × ((result.row < 16) × (result.column < 16)) }
{
    let mut columns = [0i64; 16];
    let mut diagonals = [0i64; 16];
    let k = totals_again(packed, &mut columns, &mut diagonals);
    totals_found(&columns, &diagonals, k)
}

// T of the next year: t without the diagonal d of its own year, and the column v of the next.
pub fn next_corner(t: i64, d: i64, v: i64) -> i64
    requires { (nat_abs t ≤ most_corner) × ((nat_abs d ≤ most_corner) × (nat_abs v ≤ most_corner)) }
    ensures { result ≡ t -ℤ d +ℤ v }
{
    add(subtract(t, d), v)
}

// The finding of question 8, which says no, by the totals of the columns and of the diagonals of the years 0 to k: T from year 0 on, T of year 0 being its column.
fn rest_found(columns: &[i64; 16], diagonals: &[i64; 16], k: usize) -> Finding
    requires { (k < 16)
        × (TotalsSmall columns.now
        × (TotalsSmall diagonals.now
        × (every (λ m. rest_passes_of (corner_by (λ j. get_or columns.now j (pos 0)) (λ h. get_or diagonals.now h (pos 0))) (λ j. get_or columns.now j (pos 0)) (m + 1)) (below k)
        ≡ false))) }
    ensures { (result
        ≡ rest_found (corner_by (λ j. get_or columns.now j (pos 0)) (λ h. get_or diagonals.now h (pos 0))) (λ j. get_or columns.now j (pos 0)) k)
        × ((result.row < 16) × (result.column < 16)) }
{
    let mut t = columns[0];
    for m in 0..k {
        let h = m + 1;
        let v = columns[h];
        t = next_corner(t, diagonals[m], v);
        let rest = subtract(t, v);
        if rest < 1 {
            return Finding {
                place: DEVELOPMENT_YEAR,
                row: 0,
                column: h,
                one: t,
                two: v,
                three: rest,
            };
        }
    }
    // not reached: question 8 says no of a year
    Finding {
        place: NOWHERE,
        row: 0,
        column: 0,
        one: 0,
        two: 0,
        three: 0,
    }
}

// The finding of question 8.
pub fn rest_finding(year: u64, packed: &[u8]) -> Finding
    requires { run_answer year packed.now most_entries ≡ 8 }
    ensures { (result ≡ rest_finding (square_of (figures_of packed.now)) (figures_of packed.now).k)
        × ((result.row < 16) × (result.column < 16)) }
{
    let mut columns = [0i64; 16];
    let mut diagonals = [0i64; 16];
    let k = totals_again(packed, &mut columns, &mut diagonals);
    rest_found(&columns, &diagonals, k)
}
