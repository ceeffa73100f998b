// Opening a record: k and questions 1 and 2.
#![tactic(auto)]

ghost use Rattle.std.specs.Prelude.{◌≡◌, true, ◌+◌, ◌-◌, ◌*◌, ◌<◌, ◌≤◌, ◌%◌, ◌^◌, eqb, length};
ghost use Rattle.rules.specs.Packing.{number_of};
ghost use Rattle.rules.specs.Record.{last_year_of};
ghost use Rattle.rules.specs.Questions.{first_no};
ghost use Rattle.rules.specs.Reading.{has_last_year, has_length, opening_questions};

use layout::places_of;
use packing::field;
use rules::ACCEPTED;

// k, the first four bits.
#[tactic(auto, unfolding(rules::specs::Record::last_year_of))]
pub fn last_year_of(s: &[u8]) -> usize
    requires { 1 ≤ length s.now }
    ensures { (result ≡ last_year_of s.now) × (result < 16) }
{
    usize::from(s[0]) / 16
}

// Question 1.
#[tactic(auto, using(std::proofs::lemmas::Bool::Decides::nat_tests), unfolding(rules::specs::Reading::has_last_year))]
fn has_last_year(s: &[u8]) -> bool
    ensures { result ≡ has_last_year s.now }
{
    !s.is_empty() && 1 <= last_year_of(s)
}

// Whether every bit from place `end` on is zero.
fn zero_from(s: &[u8], end: usize) -> bool
    requires { (8 ≤ length s.now) × ((length s.now < 2 ^ 32) × ((end ≤ 8 * length s.now) × (8 * length s.now < end + 8))) }
    ensures { result ≡ eqb (number_of s.now % 2 ^ (8 * length s.now - end)) 0 }
{
    let n = 8 * s.len() - end;
    n == 0 || field(s, end, n) == 0
}

// Question 2.
fn has_length(s: &[u8]) -> bool
    requires { has_last_year s.now ≡ true }
    ensures { result ≡ has_length s.now }
{
    let end = places_of(last_year_of(s)).end;
    s.len() == (end + 7) / 8 && zero_from(s, end)
}

// Questions 1 and 2.
pub fn opens(s: &[u8]) -> u64
    ensures { result ≡ first_no (opening_questions s.now) }
{
    if !has_last_year(s) {
        return 1;
    }
    if !has_length(s) {
        return 2;
    }
    ACCEPTED
}
