// What a report's program reads: the years, the title, a line of inflation and the record on standard input. What arrives there is outside the contracts, as for `printing`.
#![tactic(auto)]

ghost use Rattle.printing.specs.Counts.{IsPrefixLen};

use kinds::is_text;
use printing::{read_some, say_text};
use titled_input::parts_of;

// Whether an input is a text where years, title, line and record are due, behind those or from the start. Up to five bytes are those of the years and of the title's length, and no text.
fn is_text_for_report(input: &[u8]) -> bool {
    input.len() > 5 && (is_text(input) || is_text(&input[parts_of(input).packed..]))
}

// Reads the input of a report and answers how many bytes it has; 0 where none arrived, after saying why.
pub fn read_report(rt: &HostRuntime, buf: &mut [u8]) -> usize
    ensures { IsPrefixLen result buf.new }
{
    let size = read_some(rt, buf);
    if is_text_for_report(&buf[..size]) {
        say_text(
            rt,
            b", and put the valuation year, the first year, the title and a line of inflation before it\n",
        );
        return 0;
    }
    size
}
