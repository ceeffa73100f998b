// Where question 13 says no of a record, and the figures there.
#![tactic(auto)]

ghost use Rattle.std.specs.Prelude.{◌≡◌, false, ◌*◌, ◌≤◌, ◌<◌};
ghost use Rattle.rules.specs.Record.{million, figures_of};
ghost use Rattle.rules.specs.Triangle.{most_cumulative};
ghost use Rattle.rules.specs.Ladder.{development_factor, factors_pass};
ghost use Rattle.rules.specs.Results.{most_entries};
ghost use Rattle.rules.specs.Engine.{run_answer};
ghost use Rattle.ladder.specs.Columns.{developed_in, base_in, Ladderable};
ghost use Rattle.development_findings.specs.DevelopmentFindings.{development_found, development_finding};

use finding::{DEVELOPMENT_YEAR, Finding};
use opening::last_year_of;
use outcomes::read_again;
use reasons::first_refused;
use rules::MILLION;

// A development factor, 0 where the base b is.
fn factor_of(a: u64, b: u64) -> u64
    requires { a ≤ 16 * most_cumulative }
    ensures { (result ≡ development_factor a b) × (result ≤ million * a) }
{
    if b == 0 {
        return 0;
    }
    MILLION * a / b
}

// The finding of question 13 by the column sums of the given cumulatives and the paid cumulatives of the years 0 to k.
fn development_found(columns: &[u64; 16], paid: &[u64; 16], k: usize) -> Finding
    requires { Ladderable k columns.now paid.now × (factors_pass k (developed_in columns.now) (base_in k columns.now paid.now) ≡ false) }
    ensures { (result ≡ development_found (developed_in columns.now) (base_in k columns.now paid.now) k)
        × ((result.row < 16) × (result.column < 16)) }
{
    let h = first_refused(columns, paid, k);
    let base = columns[h] - paid[k - h];
    let developed = columns[h + 1];
    let factor = factor_of(developed, base);
    Finding {
        place: DEVELOPMENT_YEAR,
        row: 0,
        column: h,
        one: base as i64,
        two: developed as i64,
        three: factor as i64,
    }
}

// The finding of question 13.
pub fn development_finding(year: u64, packed: &[u8]) -> Finding
    requires { run_answer year packed.now most_entries ≡ 13 }
    ensures { (result ≡ development_finding (figures_of packed.now).k (figures_of packed.now).increments)
        × ((result.row < 16) × (result.column < 16)) }
{
    let mut increments = [0i64; 136];
    let mut reporting = [0u64; 16];
    let mut ulae = [0u64; 16];
    let mut paid = [0u64; 16];
    let mut sums = [0u64; 16];
    let mut columns = [0i64; 16];
    let mut diagonals = [0i64; 16];
    read_again(
        packed,
        &mut increments,
        &mut reporting,
        &mut ulae,
        &mut paid,
        &mut sums,
        &mut columns,
        &mut diagonals,
    );
    development_found(&sums, &paid, last_year_of(packed))
}
