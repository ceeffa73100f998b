// The ULAE ratio under growth: from which valuation year on it is corrected, and by what divisor.
#![tactic(auto)]

ghost use Rattle.std.specs.Prelude.{◌≡◌, ◌≤◌, pos};
ghost use Rattle.rules.specs.Record.{million};
ghost use Rattle.rules.specs.Completion.{most_ultimate};
ghost use Rattle.rules.specs.Growth.{corrects, divisor_of};

use rules::{FIRST_CORRECTED_YEAR, MILLION};

// The plain ratio of an accepted run, and what corrects it: what is reported and what is paid in the latest year, and the divisor, all three 0 where the year's ratio is
// not corrected.
#[derive(Clone, Copy)]
pub struct Correction {
    pub plain: u64,
    pub reported: u64,
    pub paid: u64,
    pub divisor: u64,
}

// Whether the ratio of a valuation year is corrected.
pub fn corrects(year: u64) -> bool
    ensures { result ≡ corrects year }
{
    year >= FIRST_CORRECTED_YEAR
}

// The divisor of the plain ratio.
pub fn divisor_of(weight: u64, reported: u64, paid: u64) -> u64
    requires { (weight ≤ million) × ((reported ≤ most_ultimate) × (1 ≤ paid)) }
    ensures { result ≡ divisor_of weight reported (pos paid) }
{
    MILLION - weight + weight * reported / paid
}
