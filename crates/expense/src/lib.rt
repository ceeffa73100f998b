// The ULAE reserve by the New York method: the plain ratio under question 12, what is not yet reported, and the reserve.
#![tactic(auto)]

ghost use Rattle.std.specs.Prelude.{◌≡◌, ◌+◌, ◌*◌, ◌≤◌, pos, length};
ghost use Rattle.std.proofs.lemmas.List.Edits.{sets};
ghost use Rattle.rules.specs.Lists.{up_to, joined};
ghost use Rattle.rules.specs.Record.{million, most_amount};
ghost use Rattle.rules.specs.Completion.{most_ultimate};
ghost use Rattle.rules.specs.Expense.{ratio_pass, plain_ratio, not_reported, reserve_of, reserve};
ghost use Rattle.rules.specs.Results.{reserve_sections};
ghost use Rattle.expense.specs.Reservable.{Reservable};

use entries::put_natural;
use rules::MILLION;

// Question 12, of the total paid and the total of the ULAE.
#[tactic(auto, using(std::proofs::lemmas::Bool::Decides::nat_tests), unfolding(rules::specs::Expense::ratio_pass))]
pub fn ratio_passes(paid: u64, spent: u64) -> bool
    ensures { result ≡ ratio_pass (pos paid) spent }
{
    1 <= paid && spent <= paid
}

// The plain ratio: the ULAE totals over the paid total, in millionths.
pub fn plain_ratio(paid: u64, spent: u64) -> u64
    requires { (1 ≤ paid) × (spent ≤ 16 * most_amount) }
    ensures { result ≡ plain_ratio (pos paid) spent }
{
    MILLION * spent / paid
}

// The reserve of a row, from what is not yet reported and the provision.
fn reserve_of(ratio: u64, weight: u64, not_reported: u64, provision: u64) -> u64
    requires { (ratio ≤ million) × ((weight ≤ million) × ((not_reported ≤ most_ultimate) × (provision ≤ most_ultimate))) }
    ensures { (result ≡ reserve_of ratio weight not_reported provision) × (result ≤ most_ultimate) }
{
    let weighted = (weight * not_reported + (MILLION - weight) * provision) / MILLION;
    ratio * weighted / MILLION
}

// What is not yet reported, the reserves, their total and the ratio go into the list from place `at` on; answers the place after them.
pub fn put_reserves(
    out: &mut [i64],
    at: usize,
    k: usize,
    paid: &[u64; 16],
    provisions: &[u64; 16],
    reporting: &[u64; 16],
    weight: u64,
    ratio: u64,
) -> usize
    requires { Reservable k paid.now provisions.now reporting.now weight ratio × (at + 2 * (k + 1) + 2 ≤ length out.old) }
    ensures { (result ≡ at + 2 * (k + 1) + 2)
        × (out.new
        ≡ sets out.old at
        (joined
        (reserve_sections (up_to (not_reported k reporting.now paid.now provisions.now) (k + 1))
        (up_to (reserve k ratio weight reporting.now paid.now provisions.now) (k + 1)) ratio))) }
{
    let n = k + 1;
    let mut after: u64 = 0;
    let mut total: u64 = 0;
    for i in 0..n {
        let provision = provisions[i];
        let open = (paid[i] + provision) * after / MILLION;
        let amount = reserve_of(ratio, weight, open, provision);
        out[at + i] = open as i64;
        out[at + n + i] = amount as i64;
        total += amount;
        after += reporting[k - i];
    }
    let end = put_natural(out, at + 2 * n, total);
    put_natural(out, end, ratio)
}
