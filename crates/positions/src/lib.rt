// What is given of a position of a window: the number that its separation answers, its shares and its levels, in a lent list.
#![tactic(auto)]

ghost use Rattle.std.specs.Prelude.{◌≡◌, ◌∷◌, ◌++◌, map, ◌+◌, ◌*◌, ◌≤◌, ◌<◌, pos, length, take};
ghost use Rattle.std.proofs.lemmas.List.Edits.{sets};
ghost use Rattle.rules.specs.Separation.{billion};
ghost use Rattle.rules.specs.History.{separation_entries};
ghost use Rattle.totals.specs.CellSizes.{Cells};
ghost use Rattle.totals.specs.Squares.{cut_of};
ghost use Rattle.positions.specs.Entries.{Small};

use entries::{put_natural, put_naturals};
use separation::separate;

// A number, the first n shares and the first n levels go into out from place `at` on.
fn put_factors<'a>(
    out: &mut [i64],
    at: usize,
    answer: u64,
    shares: &'a [u64; 16],
    levels: &'a [u64; 16],
    n: usize,
) -> usize
    requires { ((n ≤ 16) × (at + (1 + 2 * n) ≤ length out.old))
        × ((answer ≤ billion) × (Small shares.now × Small levels.now)) }
    ensures { (result ≡ at + (1 + 2 * n))
        × (out.new ≡ sets out.old at (pos answer ∷ (map pos (take n shares.now) ++ map pos (take n levels.now)))) }
{
    let first = put_natural(out, at, answer);
    let next = put_naturals(out, first, shares, n);
    put_naturals(out, next, levels, n)
}

// The entries of the window over the rows from `first` on go into out from place `at` on.
pub fn put_position(out: &mut [i64], at: usize, rows: &[[i64; 16]], first: usize, k: usize) -> usize
    requires { ((Cells rows.now × (first + k < length rows.now)) × (k < 16)) × (at + (1 + 2 * (k + 1)) ≤ length out.old) }
    ensures { (result ≡ at + (1 + 2 * (k + 1)))
        × (out.new ≡ sets out.old at (separation_entries (cut_of rows.now first k) k)) }
{
    let found = separate(rows, first, k);
    put_factors(
        out,
        at,
        found.answer,
        &found.factors.shares,
        &found.factors.levels,
        k + 1,
    )
}
