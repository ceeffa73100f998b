// A table of the report, in a lent buffer.
#![tactic(auto)]

ghost use Rattle.composing.specs.Text.{Put};
ghost use Rattle.table_heads.specs.Heads.{Fits};
ghost use Rattle.table.specs.Table.{table};

use table_cells::MOST_PLACES;
use table_heads::Shape;
use text_table::put_text_table;
use web_table::put_web_table;

// The table on the page of HTML or on the page of text.
pub fn put_table(
    out: &mut [u8],
    at: usize,
    html: bool,
    key: bool,
    words: &[u8],
    labels: &[u8],
    total: &[u8],
    shape: Shape,
    values: &[i64; MOST_PLACES],
    styles: &[u8; MOST_PLACES],
) -> usize
    requires { Fits shape }
    ensures { Put out.old out.new at result (table html key words.now labels.now total.now shape values.now styles.now) }
{
    if html {
        put_web_table(out, at, key, words, labels, total, shape, values, styles)
    } else {
        put_text_table(out, at, words, labels, total, shape, values, styles)
    }
}
