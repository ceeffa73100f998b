// Where questions 9 and 10 say no of a record, and the figures there.
#![tactic(auto)]

ghost use Rattle.std.specs.Prelude.{◌≡◌, false, ℕ, ◌+◌, ◌*◌, ◌≤◌, ◌<◌, leb, pos, get_or, take};
ghost use Rattle.rules.specs.Lists.{total, below, every};
ghost use Rattle.rules.specs.Record.{figures_of};
ghost use Rattle.rules.specs.Separation.{billion};
ghost use Rattle.rules.specs.Results.{most_entries, square_of};
ghost use Rattle.rules.specs.Engine.{run_answer};
ghost use Rattle.factor_findings.specs.FactorFindings.{running_finding, refused_level, level_found, level_finding};

use entries::sum_of;
use finding::{DEVELOPMENT_YEAR, Finding, PAYMENT_YEAR};
use reasons::first_above;
use rules::BILLION;
use separation::walk;
use triangle_findings::totals_again;

// The finding of question 9. The running shares are the less the earlier the year, so where one is below 1 that of year 0 is, and it is 0.
pub fn running_finding(year: u64, packed: &[u8]) -> Finding
    requires { run_answer year packed.now most_entries ≡ 9 }
    ensures { (result ≡ running_finding (square_of (figures_of packed.now)) (figures_of packed.now).k)
        × ((result.row < 16) × (result.column < 16)) }
{
    Finding {
        place: DEVELOPMENT_YEAR,
        row: 0,
        column: 0,
        one: 0,
        two: 0,
        three: 0,
    }
}

// The first of the years 0 to k whose level is above S, or k + 1.
fn first_level(levels: &[u64; 16], k: usize) -> usize
    requires { k < 16 }
    ensures { result ≡ refused_level (λ h. get_or levels.now h 0) k }
{
    first_above(levels, k + 1, BILLION)
}

// The finding of question 10, which says no, by the totals of the diagonals, the shares and the levels of the years 0 to k.
fn level_found<'a>(
    diagonals: &[i64; 16],
    shares: &'a [u64; 16],
    levels: &'a [u64; 16],
    k: usize,
) -> Finding
    requires { (k < 16)
        × (((i : ℕ) → get_or shares.now i 0 ≤ billion)
        × (((i : ℕ) → get_or levels.now i 0 ≤ billion * billion) × (every (λ h. leb (get_or levels.now h 0) billion) (below (k + 1)) ≡ false))) }
    ensures { (result
        ≡ level_found (λ h. get_or diagonals.now h (pos 0)) (λ h. total (take (h + 1) shares.now)) (λ h. get_or levels.now h 0) k)
        × ((result.row < 16) × (result.column < 16)) }
{
    let h = first_level(levels, k);
    let running = sum_of(shares, h + 1);
    Finding {
        place: PAYMENT_YEAR,
        row: h,
        column: 0,
        one: diagonals[h],
        two: running as i64,
        three: levels[h] as i64,
    }
}

// The finding of question 10.
pub fn level_finding(year: u64, packed: &[u8]) -> Finding
    requires { run_answer year packed.now most_entries ≡ 10 }
    ensures { (result ≡ level_finding (square_of (figures_of packed.now)) (figures_of packed.now).k)
        × ((result.row < 16) × (result.column < 16)) }
{
    let mut columns = [0i64; 16];
    let mut diagonals = [0i64; 16];
    let k = totals_again(packed, &mut columns, &mut diagonals);
    let factors = walk(&columns, &diagonals, k);
    level_found(&diagonals, &factors.shares, &factors.levels, k)
}
