// Parts of the report's two pages that differ between them, in a lent buffer.
#![tactic(auto)]

ghost use Rattle.composing.specs.Text.{Put};
ghost use Rattle.parts.specs.Parts.{either, only, heading, section_head, section_end, beside_start, beside_end};

use composing::put_bytes;

// x on the page of HTML, y on the page of text.
pub fn put_either(out: &mut [u8], at: usize, html: bool, x: &[u8], y: &[u8]) -> usize
    ensures { Put out.old out.new at result (either html x.now y.now) }
{
    if html {
        put_bytes(out, at, x)
    } else {
        put_bytes(out, at, y)
    }
}

// x on the page of HTML alone.
pub fn put_only(out: &mut [u8], at: usize, html: bool, x: &[u8]) -> usize
    ensures { Put out.old out.new at result (only html x.now) }
{
    put_either(out, at, html, x, b"")
}

// A heading.
pub fn put_heading(out: &mut [u8], at: usize, html: bool, text: &[u8]) -> usize
    ensures { Put out.old out.new at result (heading html text.now) }
{
    let words = put_either(out, at, html, b"<h2>", b"\n");
    let end = put_bytes(out, words, text);
    put_either(out, end, html, b"</h2>\n", b"\n")
}

// The start of a section, with its title.
pub fn put_section_start(out: &mut [u8], at: usize, html: bool, title: &[u8]) -> usize
    ensures { Put out.old out.new at result (section_head html title.now) }
{
    let head = put_only(out, at, html, b"<section>\n");
    put_heading(out, head, html, title)
}

// The end of a section.
pub fn put_section_end(out: &mut [u8], at: usize, html: bool) -> usize
    ensures { Put out.old out.new at result (section_end html) }
{
    put_only(out, at, html, b"</section>\n")
}

// The start of parts in a row.
pub fn put_beside_start(out: &mut [u8], at: usize, html: bool) -> usize
    ensures { Put out.old out.new at result (beside_start html) }
{
    put_only(out, at, html, b"<div class=\"p\">\n")
}

// And their end.
pub fn put_beside_end(out: &mut [u8], at: usize, html: bool) -> usize
    ensures { Put out.old out.new at result (beside_end html) }
{
    put_only(out, at, html, b"</div>\n")
}
