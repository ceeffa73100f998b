// Cells of a table of the report, in HTML and as text, in a lent buffer; how wide they are.
#![tactic(auto)]

ghost use Rattle.std.specs.Prelude.{◌≡◌, ◌*◌, ◌≤◌, ◌<◌, max, length};
ghost use Rattle.composing.specs.Text.{Put};
ghost use Rattle.table_cells.specs.Cells.{most_places, styled, mark_of, decimals_of, class_name, cell_start, percent_sign, web_number, web_cell, text_cell, web_cell_at, text_cell_at, column_places};

use composing::{put_byte, put_bytes};
use fixed_text::put_fixed;
use lines::put_line;
use number_lengths::fixed_length;
use numerals::put_number;

// How many places a table has at most.
pub const MOST_PLACES: usize = 320;

// The marks. Steps are added to those that have some: 1 to 5 to MARK_SHADE and MARK_NEGATIVE, 1 to 4 to MARK_ABOVE and MARK_BELOW.
pub const MARK_PLAIN: u8 = 0;

pub const MARK_PERCENTAGE: u8 = 1;

pub const MARK_YEAR: u8 = 2;

pub const MARK_FUTURE: u8 = 3;

pub const MARK_SHADE: u8 = 3;

pub const MARK_ABOVE: u8 = 8;

pub const MARK_BELOW: u8 = 12;

pub const MARK_NEGATIVE: u8 = 16;

pub const MARK_LOST: u8 = 22;

// The style of a number with d decimals and a mark.
pub fn styled(mark: u8, d: u8) -> u8
    requires { (mark ≤ 22) × (d < 10) }
    ensures { result ≡ styled mark d }
{
    1 + (d + 10 * mark)
}

// The mark of a style.
#[tactic(auto, unfolding(crate::specs::Cells::mark_of))]
pub fn mark_of(style: u8) -> u64
    ensures { result ≡ mark_of style }
{
    if style == 0 {
        0
    } else {
        u64::from((style - 1) / 10)
    }
}

// The decimals of a style.
#[tactic(auto, unfolding(crate::specs::Cells::decimals_of))]
pub fn decimals_of(style: u8) -> usize
    ensures { (result ≡ decimals_of style) × (result < 10) }
{
    if style == 0 {
        0
    } else {
        usize::from((style - 1) % 10)
    }
}

// The class of a mark: line `mark` of these.
fn put_class(out: &mut [u8], at: usize, mark: u64) -> usize
    ensures { Put out.old out.new at result (class_name mark) }
{
    put_line(
        out,
        at,
        b"\n\n\nf\ns1\ns2\ns3\ns4\ns5\nh1\nh2\nh3\nh4\nl1\nl2\nl3\nl4\nn1\nn2\nn3\nn4\nn5\nz\n",
        mark,
    )
}

// How a cell of a mark begins in HTML.
fn put_cell_start(out: &mut [u8], at: usize, mark: u64) -> usize
    ensures { Put out.old out.new at result (cell_start mark) }
{
    if mark < 3 {
        put_bytes(out, at, b"<td>")
    } else {
        let name = put_bytes(out, at, b"<td class=\"");
        let end = put_class(out, name, mark);
        put_bytes(out, end, b"\">")
    }
}

// The sign after a percentage.
#[tactic(auto, unfolding(crate::specs::Cells::percent_sign))]
fn put_percent_sign(out: &mut [u8], at: usize, mark: u64) -> usize
    ensures { Put out.old out.new at result (percent_sign mark) }
{
    if mark == 1 {
        put_byte(out, at, b'%')
    } else {
        at
    }
}

// A number of a mark in HTML.
#[tactic(auto, unfolding(crate::specs::Cells::web_number))]
fn put_web_number(out: &mut [u8], at: usize, mark: u64, d: usize, z: i64) -> usize
    ensures { Put out.old out.new at result (web_number mark d z) }
{
    if mark == 2 {
        put_fixed(out, at, d, z)
    } else {
        let end = put_number(out, at, d, z);
        put_percent_sign(out, end, mark)
    }
}

// A cell in HTML.
fn put_web_cell(out: &mut [u8], at: usize, style: u8, z: i64) -> usize
    ensures { Put out.old out.new at result (web_cell style z) }
{
    if style == 0 {
        put_bytes(out, at, b"<td></td>")
    } else {
        let mark = mark_of(style);
        let d = decimals_of(style);
        let number = put_cell_start(out, at, mark);
        let end = put_web_number(out, number, mark, d, z);
        put_bytes(out, end, b"</td>")
    }
}

// A cell as text.
fn put_text_cell(out: &mut [u8], at: usize, style: u8, z: i64) -> usize
    ensures { Put out.old out.new at result (text_cell style z) }
{
    if style == 0 {
        at
    } else {
        let end = put_fixed(out, at, decimals_of(style), z);
        put_percent_sign(out, end, mark_of(style))
    }
}

// How many characters a cell has as text.
#[tactic(auto, unfolding(crate::specs::Cells::text_cell, crate::specs::Cells::percent_sign))]
fn cell_length(style: u8, z: i64) -> usize
    ensures { result ≡ length (text_cell style z) }
{
    if style == 0 {
        0
    } else {
        let n = fixed_length(decimals_of(style), z);
        if mark_of(style) == 1 { n + 1 } else { n }
    }
}

// The cell at place p in HTML.
pub fn put_web_cell_at(
    out: &mut [u8],
    at: usize,
    values: &[i64; MOST_PLACES],
    styles: &[u8; MOST_PLACES],
    p: usize,
) -> usize
    requires { p < most_places }
    ensures { Put out.old out.new at result (web_cell_at values.now styles.now p) }
{
    put_web_cell(out, at, styles[p], values[p])
}

// The cell at place p as text.
pub fn put_text_cell_at(
    out: &mut [u8],
    at: usize,
    values: &[i64; MOST_PLACES],
    styles: &[u8; MOST_PLACES],
    p: usize,
) -> usize
    requires { p < most_places }
    ensures { Put out.old out.new at result (text_cell_at values.now styles.now p) }
{
    put_text_cell(out, at, styles[p], values[p])
}

// How many characters the cell at place p has as text.
pub fn cell_length_at(values: &[i64; MOST_PLACES], styles: &[u8; MOST_PLACES], p: usize) -> usize
    requires { p < most_places }
    ensures { result ≡ length (text_cell_at values.now styles.now p) }
{
    cell_length(styles[p], values[p])
}

pub fn larger(a: usize, b: usize) -> usize
    ensures { result ≡ max a b }
{
    a.max(b)
}

// How many characters the widest cell of column j has, in n rows.
pub fn column_places(
    values: &[i64; MOST_PLACES],
    styles: &[u8; MOST_PLACES],
    columns: usize,
    n: usize,
    j: usize,
) -> usize
    requires { (n * columns ≤ most_places) × (j < columns) }
    ensures { result ≡ column_places values.now styles.now columns n j }
{
    let mut most: usize = 0;
    for i in 0..n {
        most = larger(most, cell_length_at(values, styles, i * columns + j));
    }
    most
}
