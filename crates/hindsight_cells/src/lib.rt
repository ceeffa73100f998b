// Cells of the tables of a hindsight run.
#![tactic(auto)]

ghost use Rattle.std.specs.Prelude.{◌≡◌, ◌+◌, ◌≤◌, ◌<◌, get_or};
ghost use Rattle.rules.specs.Record.{most_index};
ghost use Rattle.rules.specs.Hindsight.{most_settings};
ghost use Rattle.hindsight_places.specs.Places.{LastYear, Setting, Step, GapsSmall};
ghost use Rattle.hindsight_cells.specs.Cells.{setting_value, setting_style, step_value, step_style, forecast_at, gap_value, gap_style, cell_value, cell_style, rows_of, columns_of, Shown};

use hindsight_places::{gap_of, is_marked, mark_of, sum_of};
use hindsight_steps::step_sum;
use rules::{MOST_HINDSIGHT, MOST_SETTINGS};
use table_cells::{MARK_PLAIN, styled};

// The tables by their numbers.
pub const SETTINGS_TABLE: usize = 0;

pub const STEPS_TABLE: usize = 1;

pub const GAPS_TABLE: usize = 2;

// Setting i: its index and its sum.
fn setting_value(
    list: &[i64; MOST_HINDSIGHT],
    settings: &[u64; MOST_SETTINGS],
    k: usize,
    i: usize,
    j: usize,
) -> i64
    requires { Setting k i × ((get_or settings.now i 0 ≤ most_index) × GapsSmall list.now) }
    ensures { result ≡ setting_value list.now settings.now k i j }
{
    if j == 0 {
        settings[i] as i64
    } else {
        sum_of(list, k, i) as i64
    }
}

fn setting_style(j: usize) -> u8
    ensures { result ≡ setting_style j }
{
    if j == 0 {
        styled(MARK_PLAIN, 6)
    } else {
        styled(MARK_PLAIN, 0)
    }
}

// Step i + 1: its sums, and its mark.
fn step_value(list: &[i64; MOST_HINDSIGHT], k: usize, n: usize, i: usize, j: usize) -> i64
    requires { Step k (i + 1) × (((n ≤ most_settings) × (j ≤ n)) × GapsSmall list.now) }
    ensures { result ≡ step_value list.now k n i j }
{
    if j == n {
        mark_of(list, k, i + 1) as i64
    } else {
        step_sum(list, k, j, i + 1) as i64
    }
}

fn step_style(list: &[i64; MOST_HINDSIGHT], k: usize, n: usize, i: usize, j: usize) -> u8
    requires { Step k (i + 1) }
    ensures { result ≡ step_style list.now k n i j }
{
    if is_marked(list, k, i + 1) {
        if j == n { styled(MARK_PLAIN, 0) } else { 0 }
    } else {
        if j == n { 0 } else { styled(MARK_PLAIN, 0) }
    }
}

// Whether there is a forecast for origin year i + 1 and development year j.
fn is_forecast(k: usize, i: usize, j: usize) -> bool
    requires { (k ≤ 15) × ((i < k) × (j < k)) }
    ensures { result ≡ forecast_at k i j }
{
    if j == 0 { false } else { i + j < k }
}

// Its gap with setting a.
fn gap_value(list: &[i64; MOST_HINDSIGHT], k: usize, a: usize, i: usize, j: usize) -> i64
    requires { (a < most_settings) × (LastYear k × ((i < k) × (j < k))) }
    ensures { result ≡ gap_value list.now k a i j }
{
    if is_forecast(k, i, j) {
        gap_of(list, k, a, i + j, i + 1)
    } else {
        0
    }
}

fn gap_style(list: &[i64; MOST_HINDSIGHT], k: usize, i: usize, j: usize) -> u8
    requires { LastYear k × ((i < k) × (j < k)) }
    ensures { result ≡ gap_style list.now k i j }
{
    if is_forecast(k, i, j) {
        if is_marked(list, k, i + j) {
            0
        } else {
            styled(MARK_PLAIN, 0)
        }
    } else {
        0
    }
}

// The value of a cell of table t.
pub fn cell_value(
    list: &[i64; MOST_HINDSIGHT],
    settings: &[u64; MOST_SETTINGS],
    k: usize,
    n: usize,
    a: usize,
    t: usize,
    i: usize,
    j: usize,
) -> i64
    requires { Shown list.now settings.now k n a × ((i < rows_of t k n) × (j < columns_of t k n)) }
    ensures { result ≡ cell_value list.now settings.now k n a t i j }
{
    if t == SETTINGS_TABLE {
        setting_value(list, settings, k, i, j)
    } else if t == STEPS_TABLE {
        step_value(list, k, n, i, j)
    } else {
        gap_value(list, k, a, i, j)
    }
}

// And its style.
pub fn cell_style(
    list: &[i64; MOST_HINDSIGHT],
    k: usize,
    n: usize,
    t: usize,
    i: usize,
    j: usize,
) -> u8
    requires { LastYear k × ((i < rows_of t k n) × (j < columns_of t k n)) }
    ensures { result ≡ cell_style list.now k n t i j }
{
    if t == SETTINGS_TABLE {
        setting_style(j)
    } else if t == STEPS_TABLE {
        step_style(list, k, n, i, j)
    } else {
        gap_style(list, k, i, j)
    }
}

// How many rows table t has.
pub fn rows_of(t: usize, k: usize, n: usize) -> usize
    requires { LastYear k }
    ensures { result ≡ rows_of t k n }
{
    if t == SETTINGS_TABLE { n } else { k - 1 }
}

// And how many columns.
pub fn columns_of(t: usize, k: usize, n: usize) -> usize
    requires { n ≤ most_settings }
    ensures { result ≡ columns_of t k n }
{
    if t == SETTINGS_TABLE {
        2
    } else if t == STEPS_TABLE {
        n + 1
    } else {
        k
    }
}
