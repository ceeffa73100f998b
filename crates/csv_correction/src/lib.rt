// What corrects the ULAE ratio as comma-separated values in a lent buffer.
#![tactic(auto)]

ghost use Rattle.composing.specs.Text.{Put};
ghost use Rattle.csv_correction.specs.Correction.{correction_lines};

use csv_rows::put_beside;
use growth::Correction;

// What is reported and what is paid in the latest year, and the divisor.
pub fn put_correction(out: &mut [u8], at: usize, correction: Correction) -> usize
    ensures { Put out.old out.new at result (correction_lines correction) }
{
    let a = put_beside(
        out,
        at,
        b"reported in the latest year",
        b"currency units",
        correction.reported,
    );
    let b = put_beside(
        out,
        a,
        b"paid in the latest year",
        b"currency units",
        correction.paid,
    );
    put_beside(
        out,
        b,
        b"divisor of the ulae ratio",
        b"millionths",
        correction.divisor,
    )
}
