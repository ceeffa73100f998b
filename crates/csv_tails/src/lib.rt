// The tail payments as comma-separated values in a lent buffer.
#![tactic(auto)]

ghost use Rattle.std.specs.Prelude.{◌≡◌, ◌<◌};
ghost use Rattle.composing.specs.Text.{Put};
ghost use Rattle.listing.specs.Starts.{starts_of};
ghost use Rattle.csv_tails.specs.Tails.{tail_lines};

use csv_rows::{by_origin, put_section};
use listing::Starts;
use rules::MOST_ENTRIES;

// The tail payments.
pub fn put_tails(
    out: &mut [u8],
    at: usize,
    list: &[i64; MOST_ENTRIES],
    k: usize,
    places: Starts,
) -> usize
    requires { (k < 16) × (places ≡ starts_of k) }
    ensures { Put out.old out.new at result (tail_lines k list.now) }
{
    put_section(
        out,
        at,
        list,
        b"tail payment",
        b"currency units",
        by_origin(k),
        places.tails,
    )
}
