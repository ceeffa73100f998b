// The run of any valuation year and record as comma-separated values: its result list, or the question that said no in words.
#![tactic(auto)]

ghost use Rattle.std.specs.Prelude.{◌≡◌};
ghost use Rattle.rules.specs.Results.{most_entries};
ghost use Rattle.rules.specs.Engine.{run_answer};
ghost use Rattle.composing.specs.Text.{Put};
ghost use Rattle.valuation.specs.Valuation.{year_in, record_in};
ghost use Rattle.csv_report.specs.Report.{csv_report_of};

use csv_text::put_csv;
use engine::doonamurk_run;
use opening::last_year_of;
use outcomes::read_accepted;
use refusals::put_refused;
use rules::MOST_ENTRIES;
use valuation::{record_start, year_of};

// What a run came to: the engine's answer, and where the text ends.
#[derive(Clone, Copy)]
pub struct Written {
    pub answer: u64,
    pub end: usize,
}

// Puts the list of a run into the buffer, or the words of its refusal, as far as the buffer goes.
fn put_run(year: u64, packed: &[u8], out: &mut [u8]) -> Written
    ensures { (result.answer ≡ run_answer year packed.now most_entries)
        × Put out.old out.new 0 result.end (csv_report_of year packed.now) }
{
    let mut list = [0i64; MOST_ENTRIES];
    let answer = doonamurk_run(year, packed, &mut list);
    if answer != 0 {
        let end = put_refused(out, 0, packed, answer);
        return Written { answer, end };
    }
    let mut paid = [0u64; 16];
    let correction = read_accepted(year, packed, &list, &mut paid);
    let end = put_csv(out, &list, last_year_of(packed), year, correction);
    Written { answer, end }
}

// The same of a program's input, a valuation year and then a record.
pub fn csv(input: &[u8], out: &mut [u8]) -> Written
    ensures { (result.answer ≡ run_answer (year_in input.now) (record_in input.now) most_entries)
        × Put out.old out.new 0 result.end (csv_report_of (year_in input.now) (record_in input.now)) }
{
    let start = record_start(input);
    put_run(year_of(input), &input[start..], out)
}
