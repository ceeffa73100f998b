// Inflation as the economists send it: from rates in three shapes to sixteen yearly indices. The language exports no enum: for other languages there is a routine
// for each shape.
#![tactic(auto)]

ghost use Rattle.std.specs.Prelude.{◌≡◌, ◌+◌, ◌<◌, ◌≤◌, replicate};
ghost use Rattle.rules.specs.Lists.{up_to, padded};
ghost use Rattle.rules.specs.Inflation.{state_after, index_after, indices_of, most_years};
ghost use Rattle.inflation.specs.Walk.{refusal, years_within};

use inflation_index::index_of;
use inflation_rates::{first_rate, next_rate, rates_pass};
use rules::{ACCEPTED, Indices, Inflation, Path};

// The first year's rate, and a path that starts at 1.0.
fn path_start(shape: Inflation) -> Path
    ensures { result ≡ state_after shape 0 }
{
    Path {
        rate: first_rate(shape),
        value: 1.0,
    }
}

// The path after the year, and the next year's rate.
fn path_next(path: Path, shape: Inflation, n: u64) -> Path
    requires { (n < most_years) × (path ≡ state_after shape n) }
    ensures { result ≡ state_after shape (n + 1) }
{
    let rate = path.rate;
    let value = path.value * (1.0 + rate);
    Path {
        rate: next_rate(shape, rate, n),
        value,
    }
}

// A refusal, with no index.
fn refuse(number: u64) -> Indices
    ensures { result ≡ refusal number }
{
    Indices {
        refused: number,
        values: [0u64; 16],
    }
}

// Puts the indices of the years wanted up to the first that leaves 1 to 5,000,000, and answers how many those are.
pub fn walk(shape: Inflation, years: u64, values: &mut [u64; 16]) -> u64
    requires { (years ≤ most_years) × (values.old ≡ replicate most_years 0) }
    ensures { (result ≡ years_within shape years) × (values.new ≡ padded most_years 0 (up_to (index_after shape) (years_within shape years))) }
{
    let mut path = path_start(shape);
    for n in 0..years {
        path = path_next(path, shape, n);
        let index = index_of(path.value * 1_000_000.0);
        if index == 0 {
            return n;
        }
        values[n as usize] = index;
    }
    years
}

// The number of the first question that says no, or 0, and the sixteen indices.
pub fn inflation_indices(shape: Inflation, years: u64) -> Indices
    ensures { result ≡ indices_of shape years }
{
    if !rates_pass(shape, years) {
        return refuse(20);
    }
    let mut values = [0u64; 16];
    if walk(shape, years, &mut values) < years {
        return refuse(21);
    }
    Indices {
        refused: ACCEPTED,
        values,
    }
}

// One flat rate.
#[unsafe(no_mangle)]
pub extern "C" fn doonamurk_flat(rate: f64, years: u64) -> Indices
    ensures { result ≡ indices_of (Inflation.Flat rate) years }
{
    inflation_indices(Inflation::Flat(rate), years)
}

// A rate that moves halfway each year toward a long-run rate.
#[unsafe(no_mangle)]
pub extern "C" fn doonamurk_fading(rate: f64, long_run: f64, years: u64) -> Indices
    ensures { result ≡ indices_of (Inflation.Fading rate long_run) years }
{
    inflation_indices(Inflation::Fading(rate, long_run), years)
}

// A shock rate in a named year, the first being year 1, with another rate in the others.
#[unsafe(no_mangle)]
pub extern "C" fn doonamurk_shock(rate: f64, other: f64, year: u64, years: u64) -> Indices
    ensures { result ≡ indices_of (Inflation.Shock rate other year) years }
{
    inflation_indices(Inflation::Shock(rate, other, year), years)
}
