// Payments after the last year: the average of the amount still to be paid for year 0, carried to the tail payments of the years, under questions 18 and 19.
#![tactic(auto)]

ghost use Rattle.std.specs.Prelude.{◌≡◌, ◌≤◌, get_or};
ghost use Rattle.std.proofs.lemmas.List.Edits.{sets};
ghost use Rattle.rules.specs.Lists.{up_to};
ghost use Rattle.rules.specs.Record.{million, most_amount};
ghost use Rattle.rules.specs.Separation.{billion};
ghost use Rattle.rules.specs.Tail.{first_tail_average, tail_payment, tail_averages_pass, tail_questions};
ghost use Rattle.rules.specs.Questions.{first_no};
ghost use Rattle.tail.specs.Tailable.{Carriable, Tailable, years_carried, tails_carried};

use averages::average;
use entries::size_of;
use rules::{ACCEPTED, BILLION, MOST_TAIL_AVERAGE};

// t_0, the average of the amount still to be paid, over the claims of year 0 and rounded as any other.
pub fn first_tail_average(tail: u64, exposures: &[u64; 16]) -> u64
    requires { (tail ≤ most_amount) × ((1 ≤ get_or exposures.now 0 0) × (get_or exposures.now 0 0 ≤ million)) }
    ensures { result ≡ first_tail_average tail exposures.now }
{
    size_of(average(tail as i64, exposures[0]))
}

// The tail payments go into the list, as far as question 19 says yes: a year's claims are multiplied only once its average has passed.
fn fill_tails(
    k: usize,
    exposures: &[u64; 16],
    first: u64,
    indices: &[u64; 16],
    tails: &mut [u64; 16],
) -> bool
    requires { Carriable k exposures.now indices.now × (first ≤ billion) }
    ensures { (result ≡ tail_averages_pass k first indices.now)
        × (tails.new
        ≡ sets tails.old 0
        (up_to (tail_payment exposures.now first indices.now) (years_carried k first indices.now))) }
{
    let n = k + 1;
    let from = indices[0];
    for i in 0..n {
        let carried = first * indices[i] / from;
        if carried > MOST_TAIL_AVERAGE {
            return false;
        }
        tails[i] = exposures[i] * carried / 100;
    }
    true
}

// Questions 18 and 19, and the tail payments where both say yes: none where 18 says no, and those before the first year at which 19 does.
pub fn carry_tail(
    k: usize,
    tail: u64,
    exposures: &[u64; 16],
    indices: &[u64; 16],
    tails: &mut [u64; 16],
) -> u64
    requires { Tailable k tail exposures.now indices.now }
    ensures { (result ≡ first_no (tail_questions k (first_tail_average tail exposures.now) indices.now))
        × (tails.new
        ≡ sets tails.old 0 (tails_carried k exposures.now (first_tail_average tail exposures.now) indices.now)) }
{
    let first = first_tail_average(tail, exposures);
    if first > BILLION {
        return 18;
    }
    if !fill_tails(k, exposures, first, indices, tails) {
        return 19;
    }
    ACCEPTED
}
