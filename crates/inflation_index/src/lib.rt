// A year's index: the whole number nearest to a float.
#![tactic(auto)]

ghost use Rattle.std.specs.Prelude.{◌≡◌};
ghost use Rattle.rules.specs.Inflation.{nearest_whole};
ghost use Rattle.inflation_index.specs.Index.{if_an_index};

use rules::MOST_INDEX;

// The whole number nearest to x, a half going up, or 0 where it leaves 1 to 5,000,000. The half is added to a whole number, where the sum is exact.
pub fn index_of(x: f64) -> u64
    ensures { result ≡ if_an_index (nearest_whole x) }
{
    if x > -1.0 {
        if x < 18446744073709551616.0 {
            let whole = std::num::truncating_f64_to_u64(x);
            if whole <= MOST_INDEX {
                let middle = (whole as f64) + 0.5;
                if x < middle {
                    return whole;
                }
                if whole < MOST_INDEX {
                    return whole + 1;
                }
            }
        }
    }
    0
}
