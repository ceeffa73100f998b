// The whole page of a history: no page is ever cut.
#![tactic(auto)]

ghost use Rattle.std.specs.Prelude.{◌≡◌, ◌≤◌, ◌<◌, length, take};
ghost use Rattle.history_places.specs.Places.{Windowed, Small};
ghost use Rattle.history_page.specs.Page.{history_page};
ghost use Rattle.history_lengths.specs.Page.{most_history_page};

use history_page::put_history_page;
use rules::MOST_HISTORY_ENTRIES;

// More bytes than the longest page of a history has.
pub const MOST_HISTORY_PAGE: usize = 524_288;

// The page of a history, of HTML or of text, and where it ends.
pub fn history_page_of(
    page: &mut [u8; MOST_HISTORY_PAGE],
    html: bool,
    title: &[u8],
    first: usize,
    years: usize,
    width: usize,
    list: &[i64; MOST_HISTORY_ENTRIES],
) -> usize
    requires { (length title.now ≤ 255) × (Windowed years width first × Small list.now) }
    ensures upper_bound { (result < most_history_page) × (take result page.new ≡ history_page html title.now first years width list.now) }
    ensures page_len { length page.new ≡ most_history_page }
{
    put_history_page(page, html, title, first, years, width, list)
}
