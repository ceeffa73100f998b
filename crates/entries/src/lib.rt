// Lists of numbers: entries put into a lent list of signed 64-bit numbers, each function answering the place after those that it filled;
// ranges; sums; sizes.
#![tactic(auto)]

ghost use Rattle.std.specs.Prelude.{◌≡◌, map, ℕ, ◌+◌, ◌<◌, ◌≤◌, ◌^◌, pos, nat_abs, length, get_or, set, take};
ghost use Rattle.std.proofs.lemmas.List.Edits.{sets};
ghost use Rattle.rules.specs.Lists.{total, every, between};
ghost use Rattle.rules.specs.Completion.{most_ultimate};

// The first n of vs go into out from place `at` on.
pub fn put_naturals(out: &mut [i64], at: usize, vs: &[u64], n: usize) -> usize
    requires { (n ≤ length vs.now) × ((at + n ≤ length out.old) × ((i : ℕ) → i < n → get_or vs.now i 0 < 2 ^ 63)) }
    ensures { (result ≡ at + n) × (out.new ≡ sets out.old at (map pos (take n vs.now))) }
{
    for (i, x) in vs[..n].iter().enumerate() {
        out[at + i] = *x as i64;
    }
    at + n
}

// The number x goes into out at place `at`.
pub fn put_natural(out: &mut [i64], at: usize, x: u64) -> usize
    requires { (at < length out.old) × (x < 2 ^ 63) }
    ensures { (result ≡ at + 1) × (out.new ≡ set out.old at (pos x)) }
{
    out[at] = x as i64;
    at + 1
}

// The first n of vs, signed, go into out from place `at` on.
#[tactic(auto, using(crate::proofs::Runs::part_put))]
pub fn put_integers(out: &mut [i64], at: usize, vs: &[i64], n: usize) -> usize
    requires { (n ≤ length vs.now) × (at + n ≤ length out.old) }
    ensures { (result ≡ at + n) × (out.new ≡ sets out.old at (take n vs.now)) }
{
    out[at..at + n].copy_from_slice(&vs[..n]);
    at + n
}

// Whether each of the first n of vs is from least to most.
pub fn within(vs: &[u64], n: usize, least: u64, most: u64) -> bool
    requires { n ≤ length vs.now }
    ensures { result ≡ every (between least most) (take n vs.now) }
{
    vs[..n].iter().all(|x| least <= *x && *x <= most)
}

// The sum of the first n of vs, at most sixteen numbers up to the most of an ultimate.
#[tactic(auto, using(laws::proofs::Library::total_is_sum))]
pub fn sum_of(vs: &[u64], n: usize) -> u64
    requires { (n ≤ length vs.now) × ((n ≤ 16) × ((i : ℕ) → i < n → get_or vs.now i 0 ≤ most_ultimate)) }
    ensures { result ≡ total (take n vs.now) }
{
    vs[..n].iter().sum()
}

// The size of x.
pub fn size_of(x: i64) -> u64
    ensures { result ≡ nat_abs x }
{
    x.unsigned_abs()
}
