// The whole report of an input: no page is ever cut.
#![tactic(auto)]

ghost use Rattle.std.specs.Prelude.{◌≡◌, ◌≤◌, ◌<◌, length, take};
ghost use Rattle.reports.specs.Report.{report_in};
ghost use Rattle.report_lengths.specs.Page.{most_page, most_input};

use reports::put_report;

// More bytes than the longest page has.
pub const MOST_PAGE: usize = 393_216;

// The report of an input, as a page of HTML or of text, and where it ends.
pub fn report(input: &[u8], page: &mut [u8; MOST_PAGE], html: bool) -> usize
    requires { length input.now ≤ most_input }
    ensures upper_bound { (result < most_page) × (take result page.new ≡ report_in html input.now) }
    ensures page_len { length page.new ≡ most_page }
{
    put_report(input, page, html)
}
