// The figures of questions 1, 2 and 5 where they say no, which is of the record as a whole.
#![tactic(auto)]

ghost use Rattle.std.specs.Prelude.{◌≡◌, ◌≤◌, ◌<◌, ◌^◌, length};
ghost use Rattle.rules.specs.Lists.{total};
ghost use Rattle.rules.specs.Results.{most_entries};
ghost use Rattle.rules.specs.Engine.{run_answer};
ghost use Rattle.packing.specs.Field.{row_at};
ghost use Rattle.reading.specs.Reading.{RowInside};
ghost use Rattle.record_findings.specs.RecordFindings.{given_finding, length_finding, shares_finding};

use finding::{Finding, NOWHERE};
use layout::{bytes_of, places_of};
use opening::last_year_of;
use packing::field;
use rules::MILLION;

// Question 1: the length that is given.
pub fn given_finding(packed: &[u8]) -> Finding
    ensures { result ≡ given_finding packed.now }
{
    Finding {
        place: NOWHERE,
        row: 0,
        column: 0,
        one: packed.len() as i64,
        two: 0,
        three: 0,
    }
}

// Question 2: the length that is given, and that which k calls for.
pub fn length_finding(packed: &[u8]) -> Finding
    requires { 1 ≤ length packed.now }
    ensures { result ≡ length_finding packed.now }
{
    let due = bytes_of(last_year_of(packed));
    Finding {
        place: NOWHERE,
        row: 0,
        column: 0,
        one: packed.len() as i64,
        two: due as i64,
        three: 0,
    }
}

// The sum of the n fields of 20 bits from bit place `at` on.
fn sum_at(s: &[u8], at: usize, n: usize) -> u64
    requires { RowInside s.now at 20 n × (n ≤ 16) }
    ensures { (result ≡ total (row_at s.now at 20 n)) × (result < 2 ^ 32) }
{
    let mut sum: u64 = 0;
    for i in 0..n {
        sum += field(s, at + 20 * i, 20);
    }
    sum
}

// Question 5: the sum of the reporting shares, and M.
pub fn shares_finding(year: u64, packed: &[u8]) -> Finding
    requires { run_answer year packed.now most_entries ≡ 5 }
    ensures { result ≡ shares_finding packed.now }
{
    let k = last_year_of(packed);
    let sum = sum_at(packed, places_of(k).reporting, k + 1);
    Finding {
        place: NOWHERE,
        row: 0,
        column: 0,
        one: sum as i64,
        two: MILLION as i64,
        three: 0,
    }
}
