// The provisions of a record that is refused by a question from 11 on, worked out again.
#![tactic(auto)]

ghost use Rattle.std.specs.Prelude.{◌≡◌, pos, replicate};
ghost use Rattle.rules.specs.Record.{figures_of};
ghost use Rattle.rules.specs.Triangle.{TotalsIn};
ghost use Rattle.rules.specs.Results.{square_of, paid_in};
ghost use Rattle.provisions_again.specs.Provided.{Carried, provisions_asked};

use completion::{complete, fill_levels};
use opening::last_year_of;
use outcomes::read_again;
use separation::separate_totals;
use tail::carry_tail;
use tail_findings::read_tail;

// The provisions go into their list, up to the first year whose ultimate is too large, from the paid cumulatives and the totals of the averages.
fn fill_provisions(
    packed: &[u8],
    paid: &[u64; 16],
    columns: &[i64; 16],
    diagonals: &[i64; 16],
    provisions: &mut [u64; 16],
)
    requires { Carried packed.now
        × ((paid.now ≡ paid_in (figures_of packed.now))
        × (TotalsIn (square_of (figures_of packed.now)) columns.now diagonals.now × (provisions.old ≡ replicate 16 0))) }
    ensures { provisions.new ≡ provisions_asked (figures_of packed.now) }
{
    let mut exposures = [0u64; 16];
    let mut indices = [0u64; 16];
    let amount = read_tail(packed, &mut exposures, &mut indices);
    let k = last_year_of(packed);
    let factors = separate_totals(columns, diagonals, k).factors;
    let mut tails = [0u64; 16];
    carry_tail(k, amount, &exposures, &indices, &mut tails);
    let mut levels = [0u64; 16];
    fill_levels(factors.levels[k], &indices, k, &mut levels);
    let mut payments = [0u64; 120];
    complete(
        k,
        &exposures,
        &factors.shares,
        &levels,
        &tails,
        paid,
        &mut payments,
        provisions,
    );
}

// The increments, the reporting shares, the ULAE totals, the paid cumulatives and the provisions of a record that has passed the questions before 11; answers the weight.
pub fn read_provided(
    packed: &[u8],
    increments: &mut [i64; 136],
    reporting: &mut [u64; 16],
    ulae: &mut [u64; 16],
    paid: &mut [u64; 16],
    provisions: &mut [u64; 16],
) -> u64
    requires { Carried packed.now
        × ((increments.old ≡ replicate 136 (pos 0))
        × ((reporting.old ≡ replicate 16 0)
        × ((ulae.old ≡ replicate 16 0) × ((paid.old ≡ replicate 16 0) × (provisions.old ≡ replicate 16 0))))) }
    ensures { (result ≡ (figures_of packed.now).weight)
        × ((increments.new ≡ (figures_of packed.now).increments)
        × ((reporting.new ≡ (figures_of packed.now).reporting)
        × ((ulae.new ≡ (figures_of packed.now).ulae)
        × ((paid.new ≡ paid_in (figures_of packed.now)) × (provisions.new ≡ provisions_asked (figures_of packed.now)))))) }
{
    let mut sums = [0u64; 16];
    let mut columns = [0i64; 16];
    let mut diagonals = [0i64; 16];
    let weight = read_again(
        packed,
        increments,
        reporting,
        ulae,
        paid,
        &mut sums,
        &mut columns,
        &mut diagonals,
    );
    fill_provisions(packed, paid, &columns, &diagonals, provisions);
    weight
}
