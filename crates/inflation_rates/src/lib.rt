// The rates of inflation of each year, and question 20 of them.
#![tactic(auto)]

ghost use Rattle.std.specs.Prelude.{◌≡◌, ◌&&◌, ◌+◌, ◌<◌};
ghost use Rattle.rules.specs.Lists.{between};
ghost use Rattle.rules.specs.Inflation.{rate_after, rate_fits, shape_fits, rates_pass};

use rules::Inflation;

// The rate of the first year.
pub fn first_rate(shape: Inflation) -> f64
    ensures { result ≡ rate_after shape 0 }
{
    match shape {
        Inflation::Flat(rate) => rate,
        Inflation::Fading(rate, _) => rate,
        Inflation::Shock(rate, other, year) => { if year == 1 { rate } else { other } }
    }
}

// The rate n + 1 years after the first, from the rate of the year before.
pub fn next_rate(shape: Inflation, rate: f64, n: u64) -> f64
    requires { (n < 16) × (rate ≡ rate_after shape n) }
    ensures { result ≡ rate_after shape (n + 1) }
{
    match shape {
        Inflation::Flat(flat) => flat,
        Inflation::Fading(_, long) => long + 0.5 * (rate - long),
        Inflation::Shock(shock, other, year) => { if year == n + 2 { shock } else { other } }
    }
}

// Whether a rate is a number from −0.5 to 1.0; one that is none fails both comparisons.
pub fn rate_fits(rate: f64) -> bool
    ensures { result ≡ rate_fits rate }
{
    -0.5 <= rate && rate <= 1.0
}

fn both_fit(rate: f64, other: f64) -> bool
    ensures { result ≡ rate_fits rate && rate_fits other }
{
    rate_fits(rate) && rate_fits(other)
}

// Whether x is from least to most.
pub fn lies_between(least: u64, most: u64, x: u64) -> bool
    ensures { result ≡ between least most x }
{
    least <= x && x <= most
}

fn shape_fits(shape: Inflation, years: u64) -> bool
    ensures { result ≡ shape_fits shape years }
{
    match shape {
        Inflation::Flat(rate) => rate_fits(rate),
        Inflation::Fading(rate, long) => both_fit(rate, long),
        Inflation::Shock(rate, other, year) => both_fit(rate, other)
            && lies_between(1, years, year),
    }
}

// Question 20.
pub fn rates_pass(shape: Inflation, years: u64) -> bool
    ensures { result ≡ rates_pass shape years }
{
    lies_between(1, 16, years) && shape_fits(shape, years)
}
