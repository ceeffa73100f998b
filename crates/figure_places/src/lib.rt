// Where the sections of the report's figures start that come after the result list.
#![tactic(auto)]

ghost use Rattle.std.specs.Prelude.{◌≡◌, ◌<◌};
ghost use Rattle.figure_places.specs.Places.{added_at};

use layout::cells_of;
use listing::entries_of;

#[derive(Clone, Copy)]
pub struct Added {
    pub exposures: usize,
    pub increments: usize,
    pub indices: usize,
    pub reporting: usize,
    pub ulae: usize,
    pub cumulatives: usize,
    pub paid: usize,
    pub running: usize,
    pub changes: usize,
    pub expected: usize,
    pub fitted: usize,
    pub allowances: usize,
    pub margins: usize,
    pub ladder: usize,
    pub remaining: usize,
    pub ultimates: usize,
    pub gaps: usize,
    pub differences: usize,
    pub sums: usize,
}

pub fn added_at(k: usize) -> Added
    requires { k < 16 }
    ensures { result ≡ added_at k }
{
    let n = k + 1;
    let m = cells_of(k);
    let exposures = entries_of(k);
    let increments = exposures + n;
    let indices = increments + m;
    let reporting = indices + n;
    let ulae = reporting + n;
    let cumulatives = ulae + n;
    let paid = cumulatives + m;
    let running = paid + n;
    let changes = running + n;
    let expected = changes + 2 * k;
    let fitted = expected + n;
    let allowances = fitted + m;
    let margins = allowances + n;
    let ladder = margins + n;
    let remaining = ladder + n;
    let ultimates = remaining + n;
    let gaps = ultimates + n;
    let differences = gaps + m;
    let sums = differences + n;
    Added {
        exposures,
        increments,
        indices,
        reporting,
        ulae,
        cumulatives,
        paid,
        running,
        changes,
        expected,
        fitted,
        allowances,
        margins,
        ladder,
        remaining,
        ultimates,
        gaps,
        differences,
        sums,
    }
}
