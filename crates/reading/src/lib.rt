// A record's figures: questions 4 and 5 of one that has passed 1 and 2.
#![tactic(auto)]

ghost use Rattle.std.specs.Prelude.{◌≡◌, map, ◌<◌, ◌≤◌, ◌^◌, get_or};
ghost use Rattle.std.proofs.lemmas.List.Edits.{sets};
ghost use Rattle.rules.specs.Record.{increment, value_of, bits_in_range};
ghost use Rattle.rules.specs.Questions.{first_no};
ghost use Rattle.rules.specs.Lists.{every, between};
ghost use Rattle.rules.specs.Reading.{opening_questions, field_questions};
ghost use Rattle.entries.specs.Leading.{passing};
ghost use Rattle.packing.specs.Field.{row_at};
ghost use Rattle.reading.specs.Reading.{RowInside, row_read};

use entries::sum_of;
use layout::places_of;
use opening::last_year_of;
use packing::field;
use rules::{ACCEPTED, MILLION, MOST_AMOUNT, MOST_INDEX, SIGN};

// The answer of questions 4 and 5, the weight and the amount still to be paid.
#[derive(Clone, Copy)]
pub struct Opened {
    pub answer: u64,
    pub weight: u64,
    pub tail: u64,
}

// The n fields of w bits from bit place `at` on go into the row, as far as each is from least to most.
fn fill_row(
    s: &[u8],
    at: usize,
    w: usize,
    n: usize,
    least: u64,
    most: u64,
    row: &mut [u64; 16],
) -> bool
    requires { RowInside s.now at w n × (n ≤ 16) }
    ensures { (result ≡ every (between least most) (row_at s.now at w n))
        × (row.new ≡ sets row.old 0 (passing (between least most) (row_at s.now at w n))) }
{
    for i in 0..n {
        let x = field(s, at + w * i, w);
        if x < least || x > most {
            return false;
        }
        row[i] = x;
    }
    true
}

// The increment with these bits.
pub fn amount(code: u64) -> i64
    requires { code < 2 ^ 35 }
    ensures { result ≡ value_of increment code }
{
    if code < SIGN {
        code as i64
    } else {
        -((code - SIGN) as i64)
    }
}

// Whether these bits are an increment in its range: a size up to the most, and no zero with sign 1.
#[tactic(auto, using(crate::proofs::AmountsRead::amount_range))]
pub fn sound(code: u64) -> bool
    requires { code < 2 ^ 35 }
    ensures { result ≡ bits_in_range increment code }
{
    code != SIGN && code % SIGN <= MOST_AMOUNT
}

// The n increments from bit place `at` on go into the list, as far as each is in its range.
fn fill_increments(s: &[u8], at: usize, n: usize, amounts: &mut [i64; 136]) -> bool
    requires { RowInside s.now at 35 n × (n ≤ 136) }
    ensures { (result ≡ every (bits_in_range increment) (row_at s.now at 35 n))
        × (amounts.new ≡ sets amounts.old 0 (map (value_of increment) (passing (bits_in_range increment) (row_at s.now at 35 n)))) }
{
    for i in 0..n {
        let code = field(s, at + 35 * i, 35);
        if !sound(code) {
            return false;
        }
        amounts[i] = amount(code);
    }
    true
}

// Questions 4 and 5 of a record that has passed 1 and 2, its weight and the amount still to be paid. The other fields go into their lists, as far as
// question 4 says yes.
pub fn read(
    s: &[u8],
    exposures: &mut [u64; 16],
    increments: &mut [i64; 136],
    indices: &mut [u64; 16],
    reporting: &mut [u64; 16],
    ulae: &mut [u64; 16],
) -> Opened
    requires { first_no (opening_questions s.now) ≡ 0 }
    ensures { (result.answer ≡ first_no (field_questions s.now))
        × ((result.weight ≡ get_or (row_read s.now 5) 0 0)
        × ((exposures.new ≡ sets exposures.old 0 (row_read s.now 1))
        × ((increments.new ≡ sets increments.old 0 (map (value_of increment) (row_read s.now 2)))
        × ((indices.new ≡ sets indices.old 0 (row_read s.now 3))
        × ((reporting.new ≡ sets reporting.old 0 (row_read s.now 4))
        × ((ulae.new ≡ sets ulae.old 0 (row_read s.now 6))
        × (result.tail ≡ get_or (row_read s.now 7) 0 0))))))) }
{
    let k = last_year_of(s);
    let at = places_of(k);
    let n = k + 1;
    if !fill_row(s, 4, 20, n, 1, MILLION, exposures) {
        return Opened {
            answer: 4,
            weight: 0,
            tail: 0,
        };
    }
    if !fill_increments(s, at.increments, at.cells, increments) {
        return Opened {
            answer: 4,
            weight: 0,
            tail: 0,
        };
    }
    if !fill_row(s, at.indices, 23, n, 1, MOST_INDEX, indices) {
        return Opened {
            answer: 4,
            weight: 0,
            tail: 0,
        };
    }
    if !fill_row(s, at.reporting, 20, n, 0, MILLION, reporting) {
        return Opened {
            answer: 4,
            weight: 0,
            tail: 0,
        };
    }
    let weight = field(s, at.weight, 20);
    if weight > MILLION {
        return Opened {
            answer: 4,
            weight: 0,
            tail: 0,
        };
    }
    if !fill_row(s, at.ulae, 34, n, 0, MOST_AMOUNT, ulae) {
        return Opened {
            answer: 4,
            weight,
            tail: 0,
        };
    }
    let tail = field(s, at.tail, 34);
    if tail > MOST_AMOUNT {
        return Opened {
            answer: 4,
            weight,
            tail: 0,
        };
    }
    if sum_of(reporting, n) != MILLION {
        return Opened {
            answer: 5,
            weight,
            tail,
        };
    }
    Opened {
        answer: ACCEPTED,
        weight,
        tail,
    }
}
