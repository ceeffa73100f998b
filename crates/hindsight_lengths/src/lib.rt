// The whole page of a hindsight run: no page is ever cut.
#![tactic(auto)]

ghost use Rattle.std.specs.Prelude.{◌≡◌, ◌≤◌, ◌<◌, length, take};
ghost use Rattle.hindsight_page.specs.Page.{Reported, hindsight_page};
ghost use Rattle.hindsight_lengths.specs.Page.{most_hindsight_page};

use hindsight_page::put_hindsight_page;
use rules::{MOST_HINDSIGHT, MOST_SETTINGS};

// More bytes than the longest page of a hindsight run has.
pub const MOST_HINDSIGHT_PAGE: usize = 65_536;

// The page of a hindsight run, of HTML or of text, and where it ends.
pub fn hindsight_page_of(
    page: &mut [u8; MOST_HINDSIGHT_PAGE],
    html: bool,
    title: &[u8],
    first: usize,
    k: usize,
    n: usize,
    settings: &[u64; MOST_SETTINGS],
    list: &[i64; MOST_HINDSIGHT],
) -> usize
    requires { (length title.now ≤ 255) × Reported first k n settings.now list.now }
    ensures upper_bound { (result < most_hindsight_page) × (take result page.new ≡ hindsight_page html title.now first k n settings.now list.now) }
    ensures page_len { length page.new ≡ most_hindsight_page }
{
    put_hindsight_page(page, html, title, first, k, n, settings, list)
}
