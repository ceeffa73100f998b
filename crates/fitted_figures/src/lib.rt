// Share times level by row of the triangle.
#![tactic(auto)]

ghost use Rattle.std.specs.Prelude.{◌≡◌, ◌+◌, ◌≤◌, ◌<◌};
ghost use Rattle.std.proofs.lemmas.List.Edits.{sets};
ghost use Rattle.rules.specs.Record.{cells};
ghost use Rattle.rules.specs.Separation.{billion};
ghost use Rattle.signed_sums.specs.Small.{Sized};
ghost use Rattle.vectors.specs.Vectors.{most_figures};
ghost use Rattle.fitted_figures.specs.FittedFigures.{products, fitted};

use entries::size_of;
use rules::BILLION;
use vectors::MOST_FIGURES;

// Row i of share times level.
fn put_fitted_row(out: &mut [i64; MOST_FIGURES], at: usize, r: usize, l: usize, n: usize)
    requires { (at + n ≤ most_figures)
        × ((r + n ≤ at) × ((l + n ≤ at) × (Sized billion r n out.old × Sized billion l n out.old))) }
    ensures { out.new ≡ sets out.old at (products r l n out.old) }
{
    for j in 0..n {
        out[at + j] = (size_of(out[r + j]) * size_of(out[l + j]) / BILLION) as i64;
    }
}

// Share times level by row.
pub fn put_fitted(out: &mut [i64; MOST_FIGURES], at: usize, r: usize, l: usize, k: usize)
    requires { (k < 16)
        × ((at + cells k ≤ most_figures)
        × ((r + (k + 1) ≤ at) × ((l + (k + 1) ≤ at) × (Sized billion r (k + 1) out.old × Sized billion l (k + 1) out.old)))) }
    ensures { out.new ≡ sets out.old at (fitted k r l out.old) }
{
    let n = k + 1;
    let mut from: usize = 0;
    for i in 0..n {
        put_fitted_row(out, at + from, r, l + i, n - i);
        from += n - i;
    }
}
