// The input of a program that runs the engine: the valuation year in two bytes, the high one first, and then the record.
#![tactic(auto)]

ghost use Rattle.std.specs.Prelude.{◌≡◌, ◌+◌, ◌<◌, ◌≤◌, length, drop};
ghost use Rattle.valuation.specs.Valuation.{pair_at, year_in, record_in};

// The number in the two bytes at place p.
#[tactic(auto, unfolding(crate::specs::Valuation::pair_at))]
pub fn pair_at(s: &[u8], p: usize) -> usize
    requires { p + 2 ≤ length s.now }
    ensures { (result ≡ pair_at s.now p) × (result < 65536) }
{
    let high = usize::from(s[p]);
    let low = usize::from(s[p + 1]);
    256 * high + low
}

// The valuation year; 0 where the input ends before both of its bytes.
pub fn year_of(input: &[u8]) -> u64
    ensures { (result ≡ year_in input.now) × (result < 65536) }
{
    if input.len() < 2 {
        return 0;
    }
    pair_at(input, 0) as u64
}

// The place after the year, where the record starts; the end of an input that has no record.
#[tactic(auto, using(crate::proofs::Inputs::record_from))]
pub fn record_start(input: &[u8]) -> usize
    ensures { (result ≤ length input.now) × (drop result input.now ≡ record_in input.now) }
{
    input.len().min(2)
}
