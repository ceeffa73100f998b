// The provisions by origin year, by both methods, in a lent buffer.
#![tactic(auto)]

ghost use Rattle.std.specs.Prelude.{◌<◌, ◌≤◌};
ghost use Rattle.composing.specs.Text.{Put};
ghost use Rattle.page_figures.specs.Given.{Figured};
ghost use Rattle.provision_section.specs.Provisions.{provision_table, provisions_section, provision_plot};

use column_plot::put_column_plot;
use column_table::put_column_table;
use figure_places::added_at;
use listing::starts_of;
use parts::{put_only, put_section_end, put_section_start};
use table_heads::Shape;
use vectors::MOST_FIGURES;

// The table.
fn put_provision_table(
    out: &mut [u8],
    at: usize,
    html: bool,
    first: usize,
    k: usize,
    figures: &[i64; MOST_FIGURES],
) -> usize
    requires { (k < 16) × ((first ≤ 65535) × Figured k figures.now) }
    ensures { Put out.old out.new at result (provision_table html first k figures.now) }
{
    let s = starts_of(k);
    let a = added_at(k);
    let shape = Shape {
        rows: k + 1,
        columns: 11,
        years: 0,
        from: first,
    };
    let starts = [
        s.provisions,
        a.remaining,
        a.differences,
        a.allowances,
        s.tails,
        a.paid,
        a.ultimates,
        a.ladder,
        s.unreported,
        s.reserves,
        a.margins,
        0,
    ];
    let decimals = [0u8, 0, 0, 2, 0, 0, 0, 0, 0, 0, 2, 0];
    put_column_table(
        out,
        at,
        html,
        b"Provisions, both methods\norigin year\nprovision\nchain ladder provision\ndifference\nprovision proved within\nof it, tail payments\npaid\nultimate\nchain ladder ultimate\nnot reported\nULAE reserve\nULAE reserve proved within\n",
        b"total",
        shape,
        figures,
        &starts,
        &decimals,
        0,
        11,
    )
}

// The section.
pub fn put_provision_section(
    out: &mut [u8],
    at: usize,
    html: bool,
    first: usize,
    k: usize,
    figures: &[i64; MOST_FIGURES],
) -> usize
    requires { (k < 16) × ((first ≤ 65535) × Figured k figures.now) }
    ensures { Put out.old out.new at result (provisions_section html first k figures.now) }
{
    let paragraph = put_section_start(out, at, html, b"Provisions by origin year");
    let table = put_only(
        out,
        paragraph,
        html,
        b"<p><b>Provision:</b> what is still to be paid, the sum of the completed payments and of the tail payment. <b>Tail payment:</b> what is paid after the last development year. The chain ladder has none. <b>Not reported:</b> the part of the ultimate that is not reported yet. <b>ULAE reserve:</b> by the New York method.</p>\n",
    );
    let end = put_provision_table(out, table, html, first, k, figures);
    put_section_end(out, end, html)
}

// The plot of the key figures.
pub fn put_provision_plot(
    out: &mut [u8],
    at: usize,
    html: bool,
    first: usize,
    k: usize,
    figures: &[i64; MOST_FIGURES],
) -> usize
    requires { (k < 16) × ((first ≤ 65535) × Figured k figures.now) }
    ensures { Put out.old out.new at result (provision_plot html first k figures.now) }
{
    let s = starts_of(k);
    let a = added_at(k);
    put_column_plot(
        out,
        at,
        html,
        b"Provision by origin year\nFor each origin year a dark bar, the provision by separation, and a light bar, that of the chain ladder. The figures are in the table of provisions.\n\nseparation\nchain ladder\n",
        1,
        0,
        first,
        k + 1,
        s.provisions,
        a.remaining,
        figures,
    )
}
