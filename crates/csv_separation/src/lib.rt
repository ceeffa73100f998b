// The averages, the shares and the levels as comma-separated values in a lent buffer.
#![tactic(auto)]

ghost use Rattle.std.specs.Prelude.{◌≡◌, ◌<◌};
ghost use Rattle.composing.specs.Text.{Put};
ghost use Rattle.listing.specs.Starts.{starts_of};
ghost use Rattle.csv_separation.specs.Separation.{separation_lines};

use csv_rows::{by_year, given_cells, put_section};
use listing::Starts;
use rules::MOST_ENTRIES;

// The averages, the shares and the levels.
pub fn put_separation(
    out: &mut [u8],
    at: usize,
    list: &[i64; MOST_ENTRIES],
    k: usize,
    places: Starts,
) -> usize
    requires { (k < 16) × (places ≡ starts_of k) }
    ensures { Put out.old out.new at result (separation_lines k list.now) }
{
    let years = by_year(0, k + 1);
    let a = put_section(
        out,
        at,
        list,
        b"average",
        b"hundredths a claim",
        given_cells(k),
        0,
    );
    let b = put_section(out, a, list, b"share", b"billionths", years, places.shares);
    put_section(
        out,
        b,
        list,
        b"level",
        b"hundredths a claim",
        years,
        places.levels,
    )
}
