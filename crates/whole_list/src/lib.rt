// The whole result list put into a lent list: its groups of sections one after another.
#![tactic(auto)]

ghost use Rattle.std.specs.Prelude.{◌≡◌, ◌≤◌, length};
ghost use Rattle.std.proofs.lemmas.List.Edits.{sets};
ghost use Rattle.rules.specs.Results.{result_count};
ghost use Rattle.whole_list.specs.Printed.{Printable, printed_list};

use expense::put_reserves;
use listing::{put_completion, put_last, put_separation};

// The whole list.
pub fn put_results<'a>(
    out: &mut [i64],
    k: usize,
    square: &[[i64; 16]; 16],
    shares: &'a [u64; 16],
    levels: &'a [u64; 16],
    ahead: &[u64; 16],
    payments: &[u64; 120],
    provisions: &[u64; 16],
    paid: &[u64; 16],
    reporting: &[u64; 16],
    weight: u64,
    ratio: u64,
    factors: &[u64; 16],
    completed: &[u64; 120],
    tails: &[u64; 16],
)
    requires { Printable k shares.now levels.now ahead.now payments.now provisions.now paid.now reporting.now weight ratio factors.now completed.now tails.now
        × (result_count k ≤ length out.old) }
    ensures { out.new
        ≡ sets out.old 0
        (printed_list k square.now shares.now levels.now ahead.now payments.now provisions.now paid.now
        reporting.now weight ratio factors.now completed.now tails.now) }
{
    let a = put_separation(out, square, shares, levels, k);
    let b = put_completion(out, a, ahead, payments, provisions, k);
    let c = put_reserves(out, b, k, paid, provisions, reporting, weight, ratio);
    put_last(out, c, factors, completed, tails, k);
}
