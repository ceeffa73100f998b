// Sections of the report's figures that are taken from triangles past the diagonal: the chain ladder's ultimates, and the payments expected by payment year.
#![tactic(auto)]

ghost use Rattle.std.specs.Prelude.{◌≡◌, ◌+◌, ◌≤◌, ◌<◌};
ghost use Rattle.std.proofs.lemmas.List.Edits.{sets};
ghost use Rattle.rules.specs.Triangle.{future_start};
ghost use Rattle.signed_sums.specs.Small.{most_figure, Sized};
ghost use Rattle.vectors.specs.Vectors.{most_figures};
ghost use Rattle.future_figures.specs.FutureFigures.{ultimate_place, ladder_ultimates, expected_payments, expected};

use vectors::MOST_FIGURES;

// Where the chain ladder's ultimate of origin year i stands: of year 0 at place p, of a later year last in its row of completed cumulatives, which start at place c.
fn ultimate_place(p: usize, c: usize, i: usize) -> usize
    requires { (c ≤ most_figures) × (i < 16) }
    ensures { result ≡ ultimate_place p c i }
{
    if i == 0 {
        return p;
    }
    let j = i - 1;
    c + ((j + 1) * j / 2 + j)
}

// The chain ladder's ultimates.
pub fn put_ladder_ultimates(out: &mut [i64; MOST_FIGURES], at: usize, p: usize, c: usize, k: usize)
    requires { (k < 16) × ((at + k < most_figures) × ((p < at) × (c + future_start (k + 1) ≤ at))) }
    ensures { out.new ≡ sets out.old at (ladder_ultimates k p c out.old) }
{
    let n = k + 1;
    for i in 0..n {
        let from = ultimate_place(p, c, i);
        out[at + i] = out[from];
    }
}

// The payments expected in the year k + 1 + t: a completed payment of each later origin year, and the tail payment of year t.
fn expected_payments(out: &[i64; MOST_FIGURES], y: usize, z: usize, k: usize, t: usize) -> i64
    requires { (k < 16) × ((t ≤ k) × ((y + future_start (k + 1) ≤ most_figures) × ((z + k < most_figures) × (Sized most_figure y (future_start (k + 1)) out.now × Sized most_figure z (k + 1) out.now)))) }
    ensures { result ≡ expected_payments k y z out.now t }
{
    let n = k - t;
    let mut sum: i64 = 0;
    for m in 0..n {
        let i = t + m;
        let row = (i + 1) * i / 2;
        sum += out[y + (row + t)];
    }
    sum + out[z + t]
}

// Those of the years after year k.
pub fn put_expected(out: &mut [i64; MOST_FIGURES], at: usize, y: usize, z: usize, k: usize)
    requires { (k < 16)
        × ((at + k < most_figures) × ((y + future_start (k + 1) ≤ at) × ((z + k < at) × (Sized most_figure y (future_start (k + 1)) out.old × Sized most_figure z (k + 1) out.old)))) }
    ensures { out.new ≡ sets out.old at (expected k y z out.old) }
{
    let n = k + 1;
    for t in 0..n {
        let sum = expected_payments(out, y, z, k, t);
        out[at + t] = sum;
    }
}
