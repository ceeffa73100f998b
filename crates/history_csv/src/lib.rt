// The list of a history as comma-separated values in a lent buffer.
#![tactic(auto)]

ghost use Rattle.std.specs.Prelude.{◌+◌, ◌*◌, ◌≤◌};
ghost use Rattle.rules.specs.Lists.{up_to, joined};
ghost use Rattle.rules.specs.History.{most_history, most_width};
ghost use Rattle.composing.specs.Text.{Put};
ghost use Rattle.history_places.specs.Places.{Inside, Windowed};
ghost use Rattle.history_csv.specs.Csv.{entry_lines, position_lines, history_csv};

use composing::put_bytes;
use csv_rows::put_line;
use history_places::entry_of;
use rules::MOST_HISTORY_ENTRIES;

// n entries of position a from entry e on.
fn put_entry_lines(
    out: &mut [u8],
    at: usize,
    name: &[u8],
    unit: &[u8],
    first: usize,
    list: &[i64; MOST_HISTORY_ENTRIES],
    width: usize,
    a: usize,
    e: usize,
    n: usize,
) -> usize
    requires { Inside width a × ((first ≤ 65535) × (e + n ≤ 2 * width + 1)) }
    ensures { Put out.old out.new at result (entry_lines name.now unit.now first list.now width a e n) }
{
    let mut end = at;
    for j in 0..n {
        let z = entry_of(list, width, a, e + j);
        end = put_line(out, end, name, unit, true, true, first + a, j, z);
    }
    end
}

// Position a.
fn put_position_lines(
    out: &mut [u8],
    at: usize,
    first: usize,
    list: &[i64; MOST_HISTORY_ENTRIES],
    width: usize,
    a: usize,
) -> usize
    requires { Inside width a × (first ≤ 65535) }
    ensures { Put out.old out.new at result (position_lines first list.now width a) }
{
    let number = entry_of(list, width, a, 0);
    let shares = put_line(
        out,
        at,
        b"number",
        b"question",
        true,
        false,
        first + a,
        0,
        number,
    );
    let levels = put_entry_lines(
        out,
        shares,
        b"share",
        b"billionths",
        first,
        list,
        width,
        a,
        1,
        width,
    );
    put_entry_lines(
        out,
        levels,
        b"level",
        b"hundredths a claim",
        first,
        list,
        width,
        a,
        1 + width,
        width,
    )
}

// The positions.
fn put_positions(
    out: &mut [u8],
    at: usize,
    first: usize,
    n: usize,
    width: usize,
    list: &[i64; MOST_HISTORY_ENTRIES],
) -> usize
    requires { (n + width ≤ most_history + 1) × ((width ≤ most_width) × (first ≤ 65535)) }
    ensures { Put out.old out.new at result (joined (up_to (position_lines first list.now width) n)) }
{
    let mut end = at;
    for a in 0..n {
        end = put_position_lines(out, end, first, list, width, a);
    }
    end
}

// The whole, from the start of the buffer on.
pub fn put_history_csv(
    out: &mut [u8],
    first: usize,
    years: usize,
    width: usize,
    list: &[i64; MOST_HISTORY_ENTRIES],
) -> usize
    requires { Windowed years width first }
    ensures { Put out.old out.new 0 result (history_csv first years width list.now) }
{
    let heading = put_bytes(
        out,
        0,
        b"section,first origin year,development or payment year,value,unit\n",
    );
    put_positions(out, heading, first, years - width + 1, width, list)
}
