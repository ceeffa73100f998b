// What of a record is needed again after a run of the engine. Laws about what the record has passed where none of questions 1 to 6 refuses it, and about the list
// that an accepted run filled, stand in proofs/.
#![tactic(auto)]

ghost use Rattle.std.specs.Prelude.{◌≡◌, true, ◌+◌, ◌*◌, ◌≤◌, ◌<◌, pos, nat_abs, get_or, take, replicate};
ghost use Rattle.rules.specs.Lists.{total, up_to, padded};
ghost use Rattle.rules.specs.Questions.{first_no};
ghost use Rattle.rules.specs.Record.{most_amount, figures_of};
ghost use Rattle.rules.specs.Reading.{opening_questions, field_questions};
ghost use Rattle.rules.specs.Triangle.{cumulatives_pass, TotalsIn};
ghost use Rattle.rules.specs.Expense.{plain_ratio};
ghost use Rattle.rules.specs.Results.{most_entries, square_of, paid_in};
ghost use Rattle.rules.specs.Engine.{run_answer};
ghost use Rattle.triangle.specs.Columns.{column_sum};
ghost use Rattle.listing.specs.Starts.{Addable};
ghost use Rattle.outcomes.specs.Outcome.{filled_by, correction_by, InRange};

use entries::{size_of, sum_of};
use expense::plain_ratio;
use growth::{Correction, corrects, divisor_of};
use latest_year::{latest_paid, latest_reported};
use listing::starts_of;
use opening::last_year_of;
use reading::read;
use rules::MOST_ENTRIES;
use triangle_rows::fill_rows;

// The increments, the reporting shares, the ULAE totals, the paid cumulatives and the sums of the cumulatives' columns of a record that has passed questions 1, 2, 4, 5 and 6, and
// the totals of the columns and diagonals of its averages; answers the weight.
pub fn read_again(
    packed: &[u8],
    increments: &mut [i64; 136],
    reporting: &mut [u64; 16],
    ulae: &mut [u64; 16],
    paid: &mut [u64; 16],
    sums: &mut [u64; 16],
    columns: &mut [i64; 16],
    diagonals: &mut [i64; 16],
) -> u64
    requires { (first_no (opening_questions packed.now) ≡ 0)
        × ((first_no (field_questions packed.now) ≡ 0)
        × ((cumulatives_pass (figures_of packed.now).k (figures_of packed.now).increments ≡ true)
        × ((increments.old ≡ replicate 136 (pos 0))
        × ((reporting.old ≡ replicate 16 0)
        × ((ulae.old ≡ replicate 16 0) × ((paid.old ≡ replicate 16 0) × (sums.old ≡ replicate 16 0))))))) }
    ensures { (result ≡ (figures_of packed.now).weight)
        × ((increments.new ≡ (figures_of packed.now).increments)
        × ((reporting.new ≡ (figures_of packed.now).reporting)
        × ((ulae.new ≡ (figures_of packed.now).ulae)
        × ((paid.new ≡ paid_in (figures_of packed.now))
        × ((sums.new
        ≡ up_to (column_sum (figures_of packed.now).k (figures_of packed.now).increments ((figures_of packed.now).k + 1)) 16)
        × TotalsIn (square_of (figures_of packed.now)) columns.new diagonals.new))))) }
{
    let mut exposures = [0u64; 16];
    let mut indices = [0u64; 16];
    let opened = read(
        packed,
        &mut exposures,
        increments,
        &mut indices,
        reporting,
        ulae,
    );
    let mut square = [[0i64; 16]; 16];
    fill_rows(
        last_year_of(packed),
        &exposures,
        increments,
        &mut square,
        sums,
        paid,
        columns,
        diagonals,
    );
    opened.weight
}

// The provisions of the years 0 to k, which start at place p of the list.
fn provisions_of(list: &[i64; MOST_ENTRIES], k: usize, p: usize) -> [u64; 16]
    requires { (k < 16) × (p + (k + 1) ≤ most_entries) }
    ensures { result ≡ padded 16 0 (up_to (λ i. nat_abs (get_or list.now (p + i) (pos 0))) (k + 1)) }
{
    let mut all = [0u64; 16];
    for (i, x) in list[p..p + (k + 1)].iter().enumerate() {
        all[i] = size_of(*x);
    }
    all
}

// The plain ULAE ratio, from the paid cumulatives and the ULAE totals of the years 0 to k.
pub fn plain_ratio_again(paid: &[u64; 16], ulae: &[u64; 16], k: usize) -> u64
    requires { (k < 16)
        × (Addable paid.now × (Addable ulae.now × ((1 ≤ total (take (k + 1) paid.now)) × (total (take (k + 1) ulae.now) ≤ 16 * most_amount)))) }
    ensures { result ≡ plain_ratio (pos (total (take (k + 1) paid.now))) (total (take (k + 1) ulae.now)) }
{
    let n = k + 1;
    plain_ratio(sum_of(paid, n), sum_of(ulae, n))
}

// What is paid by origin year goes into its list, from the record of an accepted run and the list that it filled; answers the plain ULAE ratio and what corrects it.
pub fn read_accepted(
    year: u64,
    packed: &[u8],
    list: &[i64; MOST_ENTRIES],
    paid: &mut [u64; 16],
) -> Correction
    requires { (run_answer year packed.now most_entries ≡ 0) × ((list.now ≡ filled_by year packed.now) × (paid.old ≡ replicate 16 0)) }
    ensures { (result ≡ correction_by year packed.now)
        × (InRange result × (paid.new ≡ paid_in (figures_of packed.now))) }
{
    let mut increments = [0i64; 136];
    let mut reporting = [0u64; 16];
    let mut ulae = [0u64; 16];
    let mut sums = [0u64; 16];
    let mut columns = [0i64; 16];
    let mut diagonals = [0i64; 16];
    let weight = read_again(
        packed,
        &mut increments,
        &mut reporting,
        &mut ulae,
        paid,
        &mut sums,
        &mut columns,
        &mut diagonals,
    );
    let k = last_year_of(packed);
    let plain = plain_ratio_again(paid, &ulae, k);
    if !corrects(year) {
        return Correction {
            plain,
            reported: 0,
            paid: 0,
            divisor: 0,
        };
    }
    let provisions = provisions_of(list, k, starts_of(k).provisions);
    let reported = latest_reported(k, &reporting, paid, &provisions);
    let latest = size_of(latest_paid(k, &increments));
    Correction {
        plain,
        reported,
        paid: latest,
        divisor: divisor_of(weight, reported, latest),
    }
}
