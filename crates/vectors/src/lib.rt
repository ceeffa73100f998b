// Sections of one array of figures, each put from a place on and worked out from sections before it.
#![tactic(auto)]

ghost use Rattle.std.specs.Prelude.{◌≡◌, ◌+◌, ◌≤◌};
ghost use Rattle.std.proofs.lemmas.List.Edits.{sets};
ghost use Rattle.signed_sums.specs.Small.{most_figure, Sized, Summed};
ghost use Rattle.vectors.specs.Vectors.{most_figures, combined, combined_all, running};

use signed_sums::{add, subtract};

// How many places the array has.
pub const MOST_FIGURES: usize = 1310;

// The sum of two figures, or the first less the second.
fn combined_of(less: bool, x: i64, y: i64) -> i64
    requires { Summed x × Summed y }
    ensures { result ≡ combined less x y }
{
    if less {
        return subtract(x, y);
    }
    add(x, y)
}

// The sums, or the differences, of n figures from place a on and n from place b on.
pub fn put_combined(
    out: &mut [i64; MOST_FIGURES],
    at: usize,
    less: bool,
    a: usize,
    b: usize,
    n: usize,
)
    requires { (at + n ≤ most_figures) × ((a + n ≤ at) × ((b + n ≤ at) × (Sized most_figure a n out.old × Sized most_figure b n out.old))) }
    ensures { out.new ≡ sets out.old at (combined_all less a b n out.old) }
{
    for i in 0..n {
        out[at + i] = combined_of(less, out[a + i], out[b + i]);
    }
}

// The running sums of n figures from place a on.
pub fn put_running(out: &mut [i64; MOST_FIGURES], at: usize, a: usize, n: usize)
    requires { (n ≤ 16) × ((at + n ≤ most_figures) × ((a + n ≤ at) × Sized most_figure a n out.old)) }
    ensures { out.new ≡ sets out.old at (running a n out.old) }
{
    let mut sum: i64 = 0;
    for i in 0..n {
        sum += out[a + i];
        out[at + i] = sum;
    }
}
