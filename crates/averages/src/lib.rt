// The average a claim: 100 × paid / claims to the nearest hundredth, halves to the even one.
#![tactic(auto)]

ghost use Rattle.std.specs.Prelude.{◌≡◌, ◌+◌, ◌-◌, ◌*◌, ◌≤◌, nat_abs};
ghost use Rattle.rules.specs.Record.{signed_of, sign_of, million, most_amount};
ghost use Rattle.rules.specs.Triangle.{average_of};
ghost use Rattle.totals.specs.CellSizes.{most_average};

// 200 × paid with the claims added away from zero: over twice the claims, toward zero, that is the average with halves away from zero.
fn dividend(paid: i64, claims: u64) -> i64
    requires { (nat_abs paid ≤ most_amount) × (claims ≤ million) }
    ensures { result ≡ signed_of (sign_of paid) (200 * nat_abs paid + claims) }
{
    let n = claims as i64;
    if paid < 0 {
        200 * paid - n
    } else {
        200 * paid + n
    }
}

// The neighbour of a number toward zero.
fn toward_zero(q: i64) -> i64
    ensures { result ≡ signed_of (sign_of q) (nat_abs q - 1) }
{
    q - q.signum()
}

// 100 × paid / claims to the nearest whole hundredth, halves to the even neighbour. Where the division leaves nothing over there was a half, and its
// neighbours are the quotient and the next number toward zero.
pub fn average(paid: i64, claims: u64) -> i64
    requires { (nat_abs paid ≤ most_amount) × ((1 ≤ claims) × (claims ≤ million)) }
    ensures { (result ≡ average_of paid claims) × (nat_abs result ≤ most_average) }
{
    let t = dividend(paid, claims);
    let twice = 2 * (claims as i64);
    let q = t / twice;
    if t % twice != 0 {
        return q;
    }
    if q % 2 == 0 {
        return q;
    }
    toward_zero(q)
}
