// The future levels, the payments, the provisions and their total as comma-separated values in a lent buffer.
#![tactic(auto)]

ghost use Rattle.std.specs.Prelude.{◌≡◌, ◌<◌};
ghost use Rattle.composing.specs.Text.{Put};
ghost use Rattle.listing.specs.Starts.{starts_of};
ghost use Rattle.csv_completion.specs.Completion.{completion_lines};

use csv_rows::{by_itself, by_origin, by_year, future_cells, put_section};
use listing::Starts;
use rules::MOST_ENTRIES;

// The future levels, the payments, the provisions and their total.
pub fn put_completion(
    out: &mut [u8],
    at: usize,
    list: &[i64; MOST_ENTRIES],
    k: usize,
    places: Starts,
) -> usize
    requires { (k < 16) × (places ≡ starts_of k) }
    ensures { Put out.old out.new at result (completion_lines k list.now) }
{
    let a = put_section(
        out,
        at,
        list,
        b"future level",
        b"hundredths a claim",
        by_year(k + 1, k),
        places.ahead,
    );
    let b = put_section(
        out,
        a,
        list,
        b"payment",
        b"currency units",
        future_cells(k),
        places.payments,
    );
    let c = put_section(
        out,
        b,
        list,
        b"provision",
        b"currency units",
        by_origin(k),
        places.provisions,
    );
    put_section(
        out,
        c,
        list,
        b"total provision",
        b"currency units",
        by_itself(),
        places.provision,
    )
}
