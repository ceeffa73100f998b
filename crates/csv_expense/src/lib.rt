// What is not reported, the ULAE reserves, their total and the ratio as comma-separated values in a lent buffer.
#![tactic(auto)]

ghost use Rattle.std.specs.Prelude.{◌≡◌, ◌<◌};
ghost use Rattle.composing.specs.Text.{Put};
ghost use Rattle.listing.specs.Starts.{starts_of};
ghost use Rattle.csv_expense.specs.Expense.{expense_lines};

use csv_rows::{by_itself, by_origin, put_section};
use listing::Starts;
use rules::MOST_ENTRIES;

// What is not reported, the ULAE reserves, their total and the ratio.
pub fn put_expense(
    out: &mut [u8],
    at: usize,
    list: &[i64; MOST_ENTRIES],
    k: usize,
    places: Starts,
) -> usize
    requires { (k < 16) × (places ≡ starts_of k) }
    ensures { Put out.old out.new at result (expense_lines k list.now) }
{
    let origins = by_origin(k);
    let single = by_itself();
    let a = put_section(
        out,
        at,
        list,
        b"not reported",
        b"currency units",
        origins,
        places.unreported,
    );
    let b = put_section(
        out,
        a,
        list,
        b"ulae reserve",
        b"currency units",
        origins,
        places.reserves,
    );
    let c = put_section(
        out,
        b,
        list,
        b"total ulae reserve",
        b"currency units",
        single,
        places.reserve,
    );
    put_section(
        out,
        c,
        list,
        b"ulae ratio",
        b"millionths",
        single,
        places.ratio,
    )
}
