// The section of the key figures, in a lent buffer.
#![tactic(auto)]

ghost use Rattle.std.specs.Prelude.{◌<◌, ◌≤◌};
ghost use Rattle.composing.specs.Text.{Put};
ghost use Rattle.page_figures.specs.Given.{Figured};
ghost use Rattle.key_section.specs.KeySection.{key_section};

use key_table::put_key_table;
use parts::{put_beside_end, put_beside_start, put_only, put_section_end, put_section_start};
use provision_section::put_provision_plot;
use summary_figures::SINGLES;
use vectors::MOST_FIGURES;

// The section.
pub fn put_key_section(
    out: &mut [u8],
    at: usize,
    html: bool,
    first: usize,
    k: usize,
    figures: &[i64; MOST_FIGURES],
    singles: &[i64; SINGLES],
) -> usize
    requires { (k < 16) × ((first ≤ 65535) × Figured k figures.now) }
    ensures { Put out.old out.new at result (key_section html first k figures.now singles.now) }
{
    let a = put_section_start(out, at, html, b"Key figures");
    let b = put_beside_start(out, a, html);
    let c = put_key_table(out, b, html, singles);
    let d = put_provision_plot(out, c, html, first, k, figures);
    let e = put_beside_end(out, d, html);
    let f = put_only(
        out,
        e,
        html,
        b"<p><b>Proved to be within:</b> for every record it accepts, the engine is proved to give the amount within this distance of the exact solution of Taylor's equations carried on without any rounding. This is about the arithmetic; it does not say how well the past foretells the future. <b>Difference:</b> separation less chain ladder.</p>\n",
    );
    put_section_end(out, f, html)
}
