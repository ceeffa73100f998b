// Paragraphs that stand on both pages, in a lent buffer.
#![tactic(auto)]

ghost use Rattle.composing.specs.Text.{Put};
ghost use Rattle.paragraphs.specs.Paragraphs.{words, paragraph_start, paragraph_end, paragraph};

use composing::put_bytes;
use parts::put_either;
use titles::put_text;

// Words of a paragraph.
pub fn put_words(out: &mut [u8], at: usize, html: bool, text: &[u8]) -> usize
    ensures { Put out.old out.new at result (words html text.now) }
{
    if html {
        put_text(out, at, true, text)
    } else {
        put_bytes(out, at, text)
    }
}

// How a paragraph starts.
pub fn put_paragraph_start(out: &mut [u8], at: usize, html: bool) -> usize
    ensures { Put out.old out.new at result (paragraph_start html) }
{
    put_either(out, at, html, b"<p>", b"\n")
}

// How it ends.
pub fn put_paragraph_end(out: &mut [u8], at: usize, html: bool) -> usize
    ensures { Put out.old out.new at result (paragraph_end html) }
{
    put_either(out, at, html, b"</p>\n", b"\n")
}

// A paragraph.
pub fn put_paragraph(out: &mut [u8], at: usize, html: bool, text: &[u8]) -> usize
    ensures { Put out.old out.new at result (paragraph html text.now) }
{
    let words = put_paragraph_start(out, at, html);
    let end = put_words(out, words, html, text);
    put_paragraph_end(out, end, html)
}
