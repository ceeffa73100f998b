// The figures of questions 16 and 17 where they say no.
#![tactic(auto)]

ghost use Rattle.std.specs.Prelude.{◌≡◌, ◌<◌};
ghost use Rattle.rules.specs.Record.{figures_of};
ghost use Rattle.rules.specs.Results.{most_entries};
ghost use Rattle.rules.specs.Engine.{run_answer};
ghost use Rattle.provisions_again.specs.Provided.{Corrects};
ghost use Rattle.correction_findings.specs.CorrectionFindings.{parts_in, Small, divisor_finding, corrected_finding};

use entries::size_of;
use finding::{Finding, NOWHERE, of_naturals};
use growth::divisor_of;
use latest_year::{latest_paid, latest_reported};
use opening::last_year_of;
use outcomes::plain_ratio_again;
use provisions_again::read_provided;
use rules::MILLION;

// What corrects a ratio: the weight, the plain ratio, what is reported and what is paid in the latest year, and the divisor.
#[derive(Clone, Copy)]
struct Parts {
    weight: u64,
    plain: u64,
    reported: u64,
    paid: u64,
    divisor: u64,
}

// What corrects the ratio of a record that has passed the questions before 16.
fn parts_again(packed: &[u8]) -> Parts
    requires { Corrects packed.now }
    ensures { (result ≡ parts_in (figures_of packed.now)) × Small result }
{
    let mut increments = [0i64; 136];
    let mut reporting = [0u64; 16];
    let mut ulae = [0u64; 16];
    let mut paid = [0u64; 16];
    let mut provisions = [0u64; 16];
    let weight = read_provided(
        packed,
        &mut increments,
        &mut reporting,
        &mut ulae,
        &mut paid,
        &mut provisions,
    );
    let k = last_year_of(packed);
    let plain = plain_ratio_again(&paid, &ulae, k);
    let reported = latest_reported(k, &reporting, &paid, &provisions);
    let latest = size_of(latest_paid(k, &increments));
    Parts {
        weight,
        plain,
        reported,
        paid: latest,
        divisor: divisor_of(weight, reported, latest),
    }
}

// Question 16: the weight, what is reported and what is paid in the latest year.
pub fn divisor_finding(year: u64, packed: &[u8]) -> Finding
    requires { run_answer year packed.now most_entries ≡ 16 }
    ensures { (result ≡ divisor_finding (figures_of packed.now)) × ((result.row < 16) × (result.column < 16)) }
{
    let parts = parts_again(packed);
    of_naturals(NOWHERE, 0, 0, parts.weight, parts.reported, parts.paid)
}

// Question 17: the plain ratio, the divisor and the corrected ratio.
pub fn corrected_finding(year: u64, packed: &[u8]) -> Finding
    requires { run_answer year packed.now most_entries ≡ 17 }
    ensures { (result ≡ corrected_finding (figures_of packed.now)) × ((result.row < 16) × (result.column < 16)) }
{
    let parts = parts_again(packed);
    of_naturals(
        NOWHERE,
        0,
        0,
        parts.plain,
        parts.divisor,
        parts.plain * MILLION / parts.divisor,
    )
}
