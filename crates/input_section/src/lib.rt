// The section of the inputs, in a lent buffer.
#![tactic(auto)]

ghost use Rattle.std.specs.Prelude.{◌<◌, ◌≤◌};
ghost use Rattle.composing.specs.Text.{Put};
ghost use Rattle.page_figures.specs.Given.{Figured};
ghost use Rattle.input_section.specs.InputSection.{input_section};

use increment_table::put_increment_table;
use input_tables::put_input_tables;
use parts::{put_beside_end, put_beside_start, put_section_end, put_section_start};
use single_tables::put_single_table;
use summary_figures::SINGLES;
use vectors::MOST_FIGURES;

// The section.
pub fn put_input_section(
    out: &mut [u8],
    at: usize,
    html: bool,
    first: usize,
    k: usize,
    figures: &[i64; MOST_FIGURES],
    singles: &[i64; SINGLES],
) -> usize
    requires { (k < 16) × ((first ≤ 65535) × Figured k figures.now) }
    ensures { Put out.old out.new at result (input_section html first k figures.now singles.now) }
{
    let a = put_section_start(out, at, html, b"Inputs as given");
    let b = put_beside_start(out, a, html);
    let c = put_input_tables(out, b, html, first, k, figures);
    let d = put_single_table(out, c, html, singles);
    let e = put_beside_end(out, d, html);
    let f = put_increment_table(out, e, html, first, k, figures);
    put_section_end(out, f, html)
}
