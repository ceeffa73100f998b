// The result list: where its sections start, and its groups of sections put into the lent list from a place on. Each function that puts answers the
// place after what it put.
#![tactic(auto)]

ghost use Rattle.std.specs.Prelude.{◌≡◌, ◌++◌, ◌+◌, ◌-◌, ◌*◌, ◌≤◌, ◌<◌, length, take};
ghost use Rattle.std.proofs.lemmas.List.Edits.{sets};
ghost use Rattle.rules.specs.Lists.{joined, up_to};
ghost use Rattle.rules.specs.Record.{cells};
ghost use Rattle.rules.specs.Results.{result_count, separation_sections, completion_sections, ladder_sections, tail_sections, most_entries};
ghost use Rattle.listing.specs.Starts.{starts_of, average_row_of, Addable};

use entries::{put_integers, put_natural, put_naturals, sum_of};
use layout::cells_of;

// Where the sections after the averages start.
#[derive(Clone, Copy)]
pub struct Starts {
    pub shares: usize,
    pub levels: usize,
    pub ahead: usize,
    pub payments: usize,
    pub provisions: usize,
    pub provision: usize,
    pub unreported: usize,
    pub reserves: usize,
    pub reserve: usize,
    pub ratio: usize,
    pub factors: usize,
    pub completed: usize,
    pub tails: usize,
}

pub fn starts_of(k: usize) -> Starts
    requires { k < 16 }
    ensures { result ≡ starts_of k }
{
    let n = k + 1;
    let shares = cells_of(k);
    let future = shares - n;
    let levels = shares + n;
    let ahead = levels + n;
    let payments = ahead + k;
    let provisions = payments + future;
    let provision = provisions + n;
    let unreported = provision + 1;
    let reserves = unreported + n;
    let reserve = reserves + n;
    let ratio = reserve + 1;
    let factors = ratio + 1;
    let completed = factors + k;
    let tails = completed + future;
    Starts {
        shares,
        levels,
        ahead,
        payments,
        provisions,
        provision,
        unreported,
        reserves,
        reserve,
        ratio,
        factors,
        completed,
        tails,
    }
}

// How many entries the result list has.
pub fn entries_of(k: usize) -> usize
    requires { k < 16 }
    ensures { (result ≡ result_count k) × (result ≤ most_entries) }
{
    3 * cells_of(k) + 6 * k + 7
}

// The averages by row.
fn put_averages(out: &mut [i64], square: &[[i64; 16]; 16], k: usize) -> usize
    requires { (k < 16) × (cells k ≤ length out.old) }
    ensures { (result ≡ cells k) × (out.new ≡ sets out.old 0 (joined (up_to (average_row_of k square.now) (k + 1)))) }
{
    let mut at: usize = 0;
    let n = k + 1;
    for i in 0..n {
        at = put_integers(out, at, &square[i], n - i);
    }
    at
}

// The averages, the shares and the levels.
pub fn put_separation(
    out: &mut [i64],
    square: &[[i64; 16]; 16],
    shares: &[u64; 16],
    levels: &[u64; 16],
    k: usize,
) -> usize
    requires { (k < 16) × ((cells k + 2 * (k + 1) ≤ length out.old) × (Addable shares.now × Addable levels.now)) }
    ensures { (result ≡ cells k + 2 * (k + 1))
        × ((result ≡ length (joined (separation_sections k square.now (take (k + 1) shares.now) (take (k + 1) levels.now))))
        × (out.new
        ≡ sets out.old 0
        (joined (separation_sections k square.now (take (k + 1) shares.now) (take (k + 1) levels.now))))) }
{
    let n = k + 1;
    let a = put_averages(out, square, k);
    let b = put_naturals(out, a, shares, n);
    put_naturals(out, b, levels, n)
}

// The future levels, the payments, the provisions and their total.
pub fn put_completion(
    out: &mut [i64],
    at: usize,
    levels: &[u64; 16],
    payments: &[u64; 120],
    provisions: &[u64; 16],
    k: usize,
) -> usize
    requires { (k < 16)
        × ((at + cells k + k + 1 ≤ length out.old) × (Addable levels.now × (Addable payments.now × Addable provisions.now))) }
    ensures { (result ≡ at + cells k + k + 1)
        × ((result
        ≡ at
        + length (joined
        (completion_sections (take k levels.now) (take (cells k - (k + 1)) payments.now) (take (k + 1) provisions.now))))
        × (out.new
        ≡ sets out.old at
        (joined
        (completion_sections (take k levels.now) (take (cells k - (k + 1)) payments.now) (take (k + 1) provisions.now))))) }
{
    let n = k + 1;
    let a = put_naturals(out, at, levels, k);
    let b = put_naturals(out, a, payments, cells_of(k) - n);
    let c = put_naturals(out, b, provisions, n);
    put_natural(out, c, sum_of(provisions, n))
}

// The development factors, the completed cumulatives and the tail payments, with which the list ends.
pub fn put_last(
    out: &mut [i64],
    at: usize,
    factors: &[u64; 16],
    completed: &[u64; 120],
    tails: &[u64; 16],
    k: usize,
) -> usize
    requires { (k < 16)
        × ((at + cells k + k ≤ length out.old) × (Addable factors.now × (Addable completed.now × Addable tails.now))) }
    ensures { (result ≡ at + cells k + k)
        × (out.new
        ≡ sets out.old at
        (joined
        (ladder_sections (take k factors.now) (take (cells k - (k + 1)) completed.now) ++ tail_sections (take (k + 1) tails.now)))) }
{
    let n = k + 1;
    let a = put_naturals(out, at, factors, k);
    let b = put_naturals(out, a, completed, cells_of(k) - n);
    put_naturals(out, b, tails, n)
}
