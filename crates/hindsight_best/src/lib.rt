// The sentence that names the best setting of a hindsight run, in a lent buffer.
#![tactic(auto)]

ghost use Rattle.std.specs.Prelude.{◌≤◌, ◌<◌, ◌^◌, get_or};
ghost use Rattle.rules.specs.Record.{most_index};
ghost use Rattle.rules.specs.Hindsight.{most_settings};
ghost use Rattle.composing.specs.Text.{Put};
ghost use Rattle.hindsight_places.specs.Places.{Setting, GapsSmall};
ghost use Rattle.hindsight_best.specs.Best.{shown_number, best_name, best_sum, best_text, none_text, best_sentence};

use composing::put_decimal;
use fixed_text::put_fixed;
use hindsight_marks::some_fitted;
use hindsight_places::sum_of;
use numerals::put_number;
use parts::put_either;
use rules::{MOST_HINDSIGHT, MOST_SETTINGS};

// A number with d decimals.
fn put_shown_number(out: &mut [u8], at: usize, html: bool, d: usize, x: u64) -> usize
    requires { x < 2 ^ 63 }
    ensures { Put out.old out.new at result (shown_number html d x) }
{
    if html {
        put_number(out, at, d, x as i64)
    } else {
        put_fixed(out, at, d, x as i64)
    }
}

// Setting a, counted from 1, and its index.
fn put_best_name(
    out: &mut [u8],
    at: usize,
    html: bool,
    settings: &[u64; MOST_SETTINGS],
    a: usize,
) -> usize
    requires { (a < most_settings) × (get_or settings.now a 0 ≤ most_index) }
    ensures { Put out.old out.new at result (best_name html settings.now a) }
{
    let b = put_either(out, at, html, b"<p>Best setting: <b>", b"Best setting: ");
    let c = put_decimal(out, b, (a + 1) as u64);
    let d = put_either(out, c, html, b"</b>, index <b>", b", index ");
    put_shown_number(out, d, html, 6, settings[a])
}

// Its sum.
fn put_best_sum(
    out: &mut [u8],
    at: usize,
    html: bool,
    list: &[i64; MOST_HINDSIGHT],
    k: usize,
    a: usize,
) -> usize
    requires { Setting k a × GapsSmall list.now }
    ensures { Put out.old out.new at result (best_sum html list.now k a) }
{
    let sum = sum_of(list, k, a);
    let b = put_either(
        out,
        at,
        html,
        b"</b>, with the smallest sum of absolute gaps, ",
        b", with the smallest sum of absolute gaps, ",
    );
    let c = put_shown_number(out, b, html, 0, sum);
    put_either(out, c, html, b".</p>\n", b".\n")
}

// Both.
fn put_best_text(
    out: &mut [u8],
    at: usize,
    html: bool,
    list: &[i64; MOST_HINDSIGHT],
    settings: &[u64; MOST_SETTINGS],
    k: usize,
    a: usize,
) -> usize
    requires { Setting k a × ((get_or settings.now a 0 ≤ most_index) × GapsSmall list.now) }
    ensures { Put out.old out.new at result (best_text html list.now settings.now k a) }
{
    let b = put_best_name(out, at, html, settings, a);
    put_best_sum(out, b, html, list, k, a)
}

// Where every step is marked.
fn put_none_text(out: &mut [u8], at: usize, html: bool) -> usize
    ensures { Put out.old out.new at result (none_text html) }
{
    put_either(
        out,
        at,
        html,
        b"<p>No step could be fitted, so that no setting is better than another.</p>\n",
        b"No step could be fitted, so that no setting is better than another.\n",
    )
}

// The sentence.
pub fn put_best(
    out: &mut [u8],
    at: usize,
    html: bool,
    list: &[i64; MOST_HINDSIGHT],
    settings: &[u64; MOST_SETTINGS],
    k: usize,
    a: usize,
) -> usize
    requires { Setting k a × ((get_or settings.now a 0 ≤ most_index) × GapsSmall list.now) }
    ensures { Put out.old out.new at result (best_sentence html list.now settings.now k a) }
{
    if some_fitted(list, k) {
        put_best_text(out, at, html, list, settings, k, a)
    } else {
        put_none_text(out, at, html)
    }
}
