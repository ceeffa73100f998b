// Where questions 11, 12 and 15 say no, and the figures there.
#![tactic(auto)]

ghost use Rattle.std.specs.Prelude.{◌≡◌, ℕ, ◌+◌, ◌*◌, ◌≤◌, ◌<◌, leb, pos, get_or, take};
ghost use Rattle.rules.specs.Lists.{total};
ghost use Rattle.rules.specs.Record.{figures_of};
ghost use Rattle.rules.specs.Triangle.{most_cumulative};
ghost use Rattle.rules.specs.Completion.{most_ultimate, ultimate};
ghost use Rattle.rules.specs.Results.{most_entries};
ghost use Rattle.rules.specs.Engine.{run_answer};
ghost use Rattle.entries.specs.Leading.{leading};
ghost use Rattle.completion.specs.Asked.{most_payment};
ghost use Rattle.listing.specs.Starts.{Addable};
ghost use Rattle.finding.specs.Places.{nowhere, found};
ghost use Rattle.reserve_findings.specs.ReserveFindings.{ultimate_finding, ratio_finding, latest_finding};

use entries::sum_of;
use finding::{Finding, NOWHERE, ORIGIN_YEAR, PAYMENT_YEAR, of_naturals};
use latest_year::latest_paid;
use opening::last_year_of;
use outcomes::read_again;
use provisions_again::read_provided;
use rules::MOST_ULTIMATE;

// The first of the years 0 to k whose ultimate is above the most, or k + 1.
fn first_over(k: usize, paid: &[u64; 16], provisions: &[u64; 16]) -> usize
    requires { (k < 16)
        × (((i : ℕ) → get_or paid.now i 0 ≤ most_cumulative) × ((i : ℕ) → get_or provisions.now i 0 ≤ 16 * most_payment)) }
    ensures { result ≡ leading (λ i. leb (ultimate paid.now provisions.now i) most_ultimate) (k + 1) }
{
    let n = k + 1;
    (0..n)
        .find(|i| paid[*i] + provisions[*i] > MOST_ULTIMATE)
        .unwrap_or(n)
}

// Question 11: the first year whose ultimate is too large, its paid cumulative, its provision and its ultimate.
pub fn ultimate_finding(year: u64, packed: &[u8]) -> Finding
    requires { run_answer year packed.now most_entries ≡ 11 }
    ensures { (result ≡ ultimate_finding (figures_of packed.now)) × ((result.row < 16) × (result.column < 16)) }
{
    let mut increments = [0i64; 136];
    let mut reporting = [0u64; 16];
    let mut ulae = [0u64; 16];
    let mut paid = [0u64; 16];
    let mut provisions = [0u64; 16];
    read_provided(
        packed,
        &mut increments,
        &mut reporting,
        &mut ulae,
        &mut paid,
        &mut provisions,
    );
    let i = first_over(last_year_of(packed), &paid, &provisions);
    let given = paid[i];
    let open = provisions[i];
    of_naturals(ORIGIN_YEAR, i, 0, given, open, given + open)
}

// The totals of the paid cumulatives and of the ULAE of the years 0 to k.
fn ratio_found(paid: &[u64; 16], ulae: &[u64; 16], k: usize) -> Finding
    requires { (k < 16) × (Addable paid.now × Addable ulae.now) }
    ensures { result ≡ found nowhere 0 0 (pos (total (take (k + 1) paid.now))) (pos (total (take (k + 1) ulae.now))) (pos 0) }
{
    let n = k + 1;
    of_naturals(NOWHERE, 0, 0, sum_of(paid, n), sum_of(ulae, n), 0)
}

// Question 12: the total of all increments, which is that of the paid cumulatives, and the total of the ULAE.
pub fn ratio_finding(year: u64, packed: &[u8]) -> Finding
    requires { run_answer year packed.now most_entries ≡ 12 }
    ensures { (result ≡ ratio_finding (figures_of packed.now)) × ((result.row < 16) × (result.column < 16)) }
{
    let mut increments = [0i64; 136];
    let mut reporting = [0u64; 16];
    let mut ulae = [0u64; 16];
    let mut paid = [0u64; 16];
    let mut sums = [0u64; 16];
    let mut columns = [0i64; 16];
    let mut diagonals = [0i64; 16];
    read_again(
        packed,
        &mut increments,
        &mut reporting,
        &mut ulae,
        &mut paid,
        &mut sums,
        &mut columns,
        &mut diagonals,
    );
    ratio_found(&paid, &ulae, last_year_of(packed))
}

// Question 15: what is paid in the latest payment year.
pub fn latest_finding(year: u64, packed: &[u8]) -> Finding
    requires { run_answer year packed.now most_entries ≡ 15 }
    ensures { (result ≡ latest_finding (figures_of packed.now)) × ((result.row < 16) × (result.column < 16)) }
{
    let mut increments = [0i64; 136];
    let mut reporting = [0u64; 16];
    let mut ulae = [0u64; 16];
    let mut paid = [0u64; 16];
    let mut sums = [0u64; 16];
    let mut columns = [0i64; 16];
    let mut diagonals = [0i64; 16];
    read_again(
        packed,
        &mut increments,
        &mut reporting,
        &mut ulae,
        &mut paid,
        &mut sums,
        &mut columns,
        &mut diagonals,
    );
    let k = last_year_of(packed);
    Finding {
        place: PAYMENT_YEAR,
        row: k,
        column: 0,
        one: latest_paid(k, &increments),
        two: 0,
        three: 0,
    }
}
