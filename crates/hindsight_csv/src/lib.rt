// The settings of a hindsight run and its report as comma-separated values in a lent buffer.
#![tactic(auto)]

ghost use Rattle.std.specs.Prelude.{true, false, ◌+◌, ◌-◌, ◌≤◌, ◌<◌, pos};
ghost use Rattle.rules.specs.Lists.{up_to, joined};
ghost use Rattle.rules.specs.Hindsight.{most_settings};
ghost use Rattle.composing.specs.Text.{Put};
ghost use Rattle.hindsight_places.specs.Places.{Tried, LastYear, Setting, Step, most_gap_sum, GapsSmall, SettingsSmall};
ghost use Rattle.hindsight_csv.specs.Csv.{setting_line, index_line, gap_line, step_lines, setting_lines, best_line, hindsight_csv};

use composing::{put_byte, put_bytes, put_decimal};
use csv_rows::put_line;
use hindsight_places::{best_of, gap_of, mark_of, sum_of};
use rules::{MOST_HINDSIGHT, MOST_SETTINGS};

// A line.
fn put_setting_line(
    out: &mut [u8],
    at: usize,
    name: &[u8],
    unit: &[u8],
    setting: usize,
    paid: bool,
    origin: bool,
    y: usize,
    i: usize,
    z: i64,
) -> usize
    ensures { Put out.old out.new at result (setting_line name.now unit.now setting paid origin y i z) }
{
    let comma = put_bytes(out, at, name);
    let number = put_byte(out, comma, b',');
    let rest = put_decimal(out, number, setting as u64);
    put_line(out, rest, b"", unit, paid, origin, y, i, z)
}

// A line of a number, of no origin year.
fn put_number_line(
    out: &mut [u8],
    at: usize,
    name: &[u8],
    unit: &[u8],
    setting: usize,
    paid: bool,
    y: usize,
    n: u64,
) -> usize
    requires { n ≤ most_gap_sum }
    ensures { Put out.old out.new at result (setting_line name.now unit.now setting paid false y 0 (pos n)) }
{
    put_setting_line(out, at, name, unit, setting, paid, false, y, 0, n as i64)
}

// The indices of n settings.
fn put_index_lines(out: &mut [u8], at: usize, settings: &[u64; MOST_SETTINGS], n: usize) -> usize
    requires { (n ≤ most_settings) × SettingsSmall settings.now n }
    ensures { Put out.old out.new at result (joined (up_to (index_line settings.now) n)) }
{
    let mut end = at;
    for (a, setting) in settings[..n].iter().enumerate() {
        end = put_number_line(out, end, b"index", b"millionths", a + 1, false, 0, *setting);
    }
    end
}

// The gaps of step h in setting a.
fn put_gap_lines(
    out: &mut [u8],
    at: usize,
    first: usize,
    list: &[i64; MOST_HINDSIGHT],
    k: usize,
    a: usize,
    h: usize,
) -> usize
    requires { (a < most_settings) × (Step k h × (first ≤ 65535)) }
    ensures { Put out.old out.new at result (joined (up_to (λ m. gap_line first list.now k a h (m + 1)) h)) }
{
    let mut end = at;
    for m in 0..h {
        let gap = gap_of(list, k, a, h, m + 1);
        end = put_setting_line(
            out,
            end,
            b"gap",
            b"currency units",
            a + 1,
            true,
            true,
            first + h + 1,
            first + (m + 1),
            gap,
        );
    }
    end
}

// Step h in setting a.
fn put_step_lines(
    out: &mut [u8],
    at: usize,
    first: usize,
    list: &[i64; MOST_HINDSIGHT],
    k: usize,
    a: usize,
    h: usize,
) -> usize
    requires { (a < most_settings) × ((Step k h × (first ≤ 65535)) × GapsSmall list.now) }
    ensures { Put out.old out.new at result (step_lines first list.now k a h) }
{
    let mark = mark_of(list, k, h);
    let gaps = put_number_line(
        out,
        at,
        b"mark",
        b"question",
        a + 1,
        true,
        first + h + 1,
        mark,
    );
    put_gap_lines(out, gaps, first, list, k, a, h)
}

// The steps of setting a.
fn put_steps(
    out: &mut [u8],
    at: usize,
    first: usize,
    list: &[i64; MOST_HINDSIGHT],
    k: usize,
    a: usize,
) -> usize
    requires { Setting k a × ((first ≤ 65535) × GapsSmall list.now) }
    ensures { Put out.old out.new at result (joined (up_to (λ m. step_lines first list.now k a (k - 1 - m)) (k - 1))) }
{
    let mut end = at;
    let n = k - 1;
    for m in 0..n {
        end = put_step_lines(out, end, first, list, k, a, k - 1 - m);
    }
    end
}

// Setting a.
fn put_setting_lines(
    out: &mut [u8],
    at: usize,
    first: usize,
    list: &[i64; MOST_HINDSIGHT],
    k: usize,
    a: usize,
) -> usize
    requires { Setting k a × ((first ≤ 65535) × GapsSmall list.now) }
    ensures { Put out.old out.new at result (setting_lines first list.now k a) }
{
    let sum = put_steps(out, at, first, list, k, a);
    let value = sum_of(list, k, a);
    put_number_line(out, sum, b"sum", b"currency units", a + 1, false, 0, value)
}

// The settings.
fn put_settings(
    out: &mut [u8],
    at: usize,
    first: usize,
    list: &[i64; MOST_HINDSIGHT],
    k: usize,
    n: usize,
) -> usize
    requires { Tried k n first × GapsSmall list.now }
    ensures { Put out.old out.new at result (joined (up_to (setting_lines first list.now k) n)) }
{
    let mut end = at;
    for a in 0..n {
        end = put_setting_lines(out, end, first, list, k, a);
    }
    end
}

// The best of n settings.
fn put_best_line(
    out: &mut [u8],
    at: usize,
    list: &[i64; MOST_HINDSIGHT],
    k: usize,
    n: usize,
) -> usize
    requires { LastYear k × ((n ≤ most_settings) × GapsSmall list.now) }
    ensures { Put out.old out.new at result (best_line list.now k n) }
{
    let best = best_of(list, k, n);
    put_number_line(
        out,
        at,
        b"best",
        b"place from 0",
        best + 1,
        false,
        0,
        best as u64,
    )
}

// The whole, from the start of the buffer on.
pub fn put_hindsight_csv(
    out: &mut [u8],
    first: usize,
    k: usize,
    n: usize,
    settings: &[u64; MOST_SETTINGS],
    list: &[i64; MOST_HINDSIGHT],
) -> usize
    requires { (Tried k n first × GapsSmall list.now) × SettingsSmall settings.now n }
    ensures { Put out.old out.new 0 result (hindsight_csv first k n settings.now list.now) }
{
    let heading = put_bytes(
        out,
        0,
        b"section,setting,payment year,origin year,value,unit\n",
    );
    let reported = put_index_lines(out, heading, settings, n);
    let best = put_settings(out, reported, first, list, k, n);
    put_best_line(out, best, list, k, n)
}
