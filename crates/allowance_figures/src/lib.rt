// How near provisions and ULAE reserves are proved to be.
#![tactic(auto)]

ghost use Rattle.std.specs.Prelude.{◌≡◌, ◌+◌, ◌≤◌, ◌<◌};
ghost use Rattle.std.proofs.lemmas.List.Edits.{sets};
ghost use Rattle.rules.specs.Record.{million};
ghost use Rattle.signed_sums.specs.Small.{Sized};
ghost use Rattle.vectors.specs.Vectors.{most_figures};
ghost use Rattle.allowance_figures.specs.Allowances.{allowance, allowances};

use entries::size_of;
use vectors::MOST_FIGURES;

// Of the provision of origin year i with n claims.
fn allowance_of(n: u64, i: usize) -> u64
    requires { (n ≤ million) × (i < 16) }
    ensures { (result ≡ allowance n i) × (result ≤ 1000000000) }
{
    let years = i as u64;
    n * (5 * (years * (years + 1) / 2) + 2 * years + 1) + 100 * (years + 1)
}

// Of the origin years 0 to k, whose numbers of claims stand from place x on, with so many hundredths more.
pub fn put_allowances(out: &mut [i64; MOST_FIGURES], at: usize, more: u64, x: usize, k: usize)
    requires { (k < 16) × ((at + k < most_figures) × ((x + k < at) × ((more ≤ 300) × Sized million x (k + 1) out.old))) }
    ensures { out.new ≡ sets out.old at (allowances more k x out.old) }
{
    let n = k + 1;
    for i in 0..n {
        let claims = size_of(out[x + i]);
        out[at + i] = (allowance_of(claims, i) + more) as i64;
    }
}
