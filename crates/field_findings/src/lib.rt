// Where question 4 of a record says no, and the figures there.
#![tactic(auto)]

ghost use Rattle.std.specs.Prelude.{◌≡◌, ◌≤◌, ◌<◌};
ghost use Rattle.rules.specs.Record.{count_of, last_year_of};
ghost use Rattle.rules.specs.Questions.{first_no};
ghost use Rattle.rules.specs.Reading.{opening_questions};
ghost use Rattle.rules.specs.Results.{most_entries};
ghost use Rattle.rules.specs.Engine.{run_answer};
ghost use Rattle.field_findings.specs.Fields.{first_row, first_field_of, finding_at, field_finding};

use field_rows::{least_value, passes, row_of, value};
use field_spots::spot_of;
use finding::{FIELD, Finding};
use opening::last_year_of;
use packing::field;

// The first field of row r that is not in range, or how many the row has.
fn first_field(s: &[u8], k: usize, r: usize) -> usize
    requires { (first_no (opening_questions s.now) ≡ 0) × ((k ≡ last_year_of s.now) × ((1 ≤ r) × (r < 8))) }
    ensures { result ≡ first_field_of s.now r }
{
    let row = row_of(k, r);
    let n = row.count;
    for m in 0..n {
        if !passes(row, field(s, row.at + row.bits * m, row.bits)) {
            return m;
        }
    }
    n
}

// The first row from row 1 on with a field that is not in range, or 8: row 0 is k, which question 1 has passed.
fn first_row(s: &[u8], k: usize) -> usize
    requires { (first_no (opening_questions s.now) ≡ 0) × (k ≡ last_year_of s.now) }
    ensures { result ≡ first_row s.now }
{
    for r in 1..8 {
        if first_field(s, k, r) < row_of(k, r).count {
            return r;
        }
    }
    8
}

// Field m of row r: its value, and the least and the most of its kind.
fn finding_at(s: &[u8], k: usize, r: usize, m: usize) -> Finding
    requires { (first_no (opening_questions s.now) ≡ 0) × ((k ≡ last_year_of s.now) × ((1 ≤ r) × ((r < 8) × (m < count_of k r)))) }
    ensures { result ≡ finding_at s.now r m }
{
    let row = row_of(k, r);
    let code = field(s, row.at + row.bits * m, row.bits);
    let place = spot_of(k, r, m);
    Finding {
        place: FIELD + (r as u64),
        row: place.row,
        column: place.column,
        one: value(row, code),
        two: least_value(row),
        three: row.most as i64,
    }
}

// Question 4: the first field, in the record's order, that is not in range.
pub fn field_finding(year: u64, packed: &[u8]) -> Finding
    requires { run_answer year packed.now most_entries ≡ 4 }
    ensures { (result ≡ field_finding packed.now) × ((result.row < 16) × (result.column < 16)) }
{
    let k = last_year_of(packed);
    let r = first_row(packed, k);
    finding_at(packed, k, r, first_field(packed, k, r))
}
