// What stands around the sections of the report, in a lent buffer.
#![tactic(auto)]

ghost use Rattle.composing.specs.Text.{Put};
ghost use Rattle.page_frame.specs.Frame.{style, head_start, web_start, text_start, start_with, page_start, page_end};

use composing::{put_bytes, put_decimal};
use parts::put_only;
use titles::put_title;

// The style after the year at the foot of a sheet.
fn put_style(out: &mut [u8], at: usize) -> usize
    ensures { Put out.old out.new at result style }
{
    let a = put_bytes(
        out,
        at,
        b"\";font:8px Arial,sans-serif}@bottom-right{content:counter(page) \" / \" counter(pages);font:8px Arial,sans-serif}}\n*{print-color-adjust:exact;-webkit-print-color-adjust:exact}\nbody{font:15px/1.45 Arial,Helvetica,sans-serif;max-width:1240px;margin:0 auto;padding:12px 16px;color:#111;background:#fff}\nh1{font-size:1.6em;line-height:1.2;margin:.3em 0;overflow-wrap:anywhere}\nh2{font-size:1.2em;margin:2em 0 .4em;border-bottom:2px solid #1b4f7a}\np{max-width:52em;margin:.4em 0}\ncode{font-size:.85em;overflow-wrap:anywhere}\n.p{display:flex;flex-wrap:wrap;gap:0 36px;align-items:flex-start}\n.t,figure{overflow-x:auto;max-width:100%;margin:.9em 0}\n.p figure{flex-grow:1}\n",
    );
    let b = put_bytes(
        out,
        a,
        b"table{border-collapse:collapse;font-size:clamp(12px,2000px/var(--n),14px);line-height:1.35;font-variant-numeric:tabular-nums}\ncaption,figcaption{text-align:left;font-size:13px;font-weight:700;padding-bottom:3px}\ncaption{white-space:nowrap}\nth,td{padding:.15em .45em;text-align:right;border-bottom:1px solid #e0e0e0}\ntd{white-space:nowrap}\nth{font-weight:400;color:#333}\nthead th{vertical-align:bottom;border-bottom:1px solid #111}\nth:first-child{text-align:left;position:sticky;left:0;background:#fff}\ntfoot{display:table-row-group}\ntfoot th,tfoot td{border-top:1px solid #111;font-weight:700}\n.k tbody tr:first-child td{font-size:clamp(14px,1.5vw,18px);font-weight:700}\ni{font-style:normal;margin-left:.2em}\n",
    );
    let c = put_bytes(
        out,
        b,
        b".f{background:#e6ebf0}\n.s1{background:#eaf1f8}.s2{background:#d3e3f1}.s3{background:#b9d2e9}.s4{background:#9cbfdf}.s5{background:#7fabd5}\n.n1{background:#fdf1e6}.n2{background:#f9dfc8}.n3{background:#f3c9a3}.n4{background:#ebb07c}.n5{background:#e29a5a}\n.h1{background:#dcebf7}.h2{background:#b9d6ee}.h3{background:#92bde2}.h4{background:#6aa2d4}\n.l1{background:#fbeadb}.l2{background:#f5d2b3}.l3{background:#edb787}.l4{background:#e29a5a}\ntd.z{outline:2px solid #111;outline-offset:-2px}\n",
    );
    let d = put_bytes(
        out,
        c,
        b"svg{display:block;width:100%;height:auto;font:11px Arial,Helvetica,sans-serif}\nsvg path{stroke:#ccc;fill:none}\nsvg .z{stroke:#111}\ntext{text-anchor:end;fill:#333}\ntext.m{text-anchor:middle}\ntext.l{text-anchor:start}\n.a{fill:#1b4f7a;background:#1b4f7a;stroke:#1b4f7a}\n.b{fill:#f3c08c;background:#f3c08c;stroke:#6b3d0c}\nb.a,b.b{display:inline-block;width:.7em;height:.7em;margin-left:1em;border:1px solid #333}\n",
    );
    put_bytes(
        out,
        d,
        b"@media print{\nbody{font-size:11px;line-height:1.35;padding:0;max-width:none}\np{max-width:72em}\nh2{margin:1.2em 0 .3em}\n.t,figure{overflow:visible;margin:.5em 0}\ntable{font-size:min(11px,1550px/var(--n));line-height:1.15}\nth,td{padding:.1em .45em}\nth:first-child{position:static}\ncaption,figcaption{font-size:10px}\n.k tbody tr:first-child td{font-size:14px}\nh2{break-after:avoid}\np+.t,p+.p{break-before:avoid}\nsection,p,.t,.p,figure{break-inside:avoid}\n}\n",
    )
}

// What stands before it.
fn put_head_start(out: &mut [u8], at: usize, title: &[u8], words: &[u8], year: u64) -> usize
    ensures { Put out.old out.new at result (head_start title.now words.now year) }
{
    let a = put_bytes(
        out,
        at,
        b"<!DOCTYPE html>\n<html lang=\"en\">\n<head>\n<meta charset=\"utf-8\">\n<meta name=\"viewport\" content=\"width=device-width,initial-scale=1\">\n<title>",
    );
    let b = put_title(out, a, true, title);
    let c = put_bytes(
        out,
        b,
        b"</title>\n<style>\n@page{size:A4 landscape;margin:11mm 10mm 14mm;@bottom-left{content:\"Doonamurk 1.0, ",
    );
    let d = put_bytes(out, c, words);
    put_decimal(out, d, year)
}

// The start of the page of HTML.
fn put_web_start(out: &mut [u8], at: usize, title: &[u8], words: &[u8], year: u64) -> usize
    ensures { Put out.old out.new at result (web_start title.now words.now year) }
{
    let a = put_head_start(out, at, title, words, year);
    let b = put_style(out, a);
    let c = put_bytes(out, b, b"</style>\n</head>\n<body>\n<h1>");
    let d = put_title(out, c, true, title);
    put_bytes(out, d, b"</h1>\n")
}

// The start of the page of text.
fn put_text_start(out: &mut [u8], at: usize, title: &[u8]) -> usize
    ensures { Put out.old out.new at result (text_start title.now) }
{
    let end = put_title(out, at, false, title);
    put_bytes(out, end, b"\n")
}

// The start of a page, the words and the year at the foot of its sheets given.
pub fn put_start_with(
    out: &mut [u8],
    at: usize,
    html: bool,
    title: &[u8],
    words: &[u8],
    year: u64,
) -> usize
    ensures { Put out.old out.new at result (start_with html title.now words.now year) }
{
    if html {
        put_web_start(out, at, title, words, year)
    } else {
        put_text_start(out, at, title)
    }
}

// That of a record's page.
pub fn put_page_start(out: &mut [u8], at: usize, html: bool, title: &[u8], year: u64) -> usize
    ensures { Put out.old out.new at result (page_start html title.now year) }
{
    put_start_with(out, at, html, title, b"valuation year ", year)
}

// And its end.
pub fn put_page_end(out: &mut [u8], at: usize, html: bool) -> usize
    ensures { Put out.old out.new at result (page_end html) }
{
    put_only(out, at, html, b"</body>\n</html>\n")
}
