// Where the question that refuses a record says no, and the figures there.
#![tactic(auto)]

ghost use Rattle.std.specs.Prelude.{◌≡◌, ◌<◌};
ghost use Rattle.rules.specs.Results.{most_entries};
ghost use Rattle.rules.specs.Engine.{run_answer};
ghost use Rattle.findings.specs.Findings.{finding_of};

use correction_findings::{corrected_finding, divisor_finding};
use cumulative_findings::cumulative_finding;
use development_findings::development_finding;
use factor_findings::{level_finding, running_finding};
use field_findings::field_finding;
use finding::{Finding, NOWHERE};
use ladder_findings::completed_finding;
use record_findings::{given_finding, length_finding, shares_finding};
use reserve_findings::{latest_finding, ratio_finding, ultimate_finding};
use tail_findings::{tail_average_finding, tail_finding};
use triangle_findings::{rest_finding, totals_finding};

// What question n found, whose number the record's run in a valuation year answers.
pub fn find(year: u64, packed: &[u8], n: u64) -> Finding
    requires { run_answer year packed.now most_entries ≡ n }
    ensures { (result ≡ finding_of packed.now n) × ((result.row < 16) × (result.column < 16)) }
{
    match n {
        1 => given_finding(packed),
        2 => length_finding(packed),
        4 => field_finding(year, packed),
        5 => shares_finding(year, packed),
        6 => cumulative_finding(year, packed),
        13 => development_finding(year, packed),
        7 => totals_finding(year, packed),
        8 => rest_finding(year, packed),
        9 => running_finding(year, packed),
        10 => level_finding(year, packed),
        18 => tail_finding(year, packed),
        19 => tail_average_finding(year, packed),
        11 => ultimate_finding(year, packed),
        12 => ratio_finding(year, packed),
        15 => latest_finding(year, packed),
        16 => divisor_finding(year, packed),
        17 => corrected_finding(year, packed),
        14 => completed_finding(year, packed),
        _ => Finding {
            place: NOWHERE,
            row: 0,
            column: 0,
            one: 0,
            two: 0,
            three: 0,
        },
    }
}
