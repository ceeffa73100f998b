// The result list of a record in a valuation year as text, and its fields: the entries of an accepted record, or `refused` and the number. Each function puts its text from a
// place on, as far as the buffer goes, and answers the place after it.
#![tactic(auto)]

ghost use Rattle.composing.specs.Text.{Put};
ghost use Rattle.valuation.specs.Valuation.{year_in, record_in};
ghost use Rattle.list_runs.specs.Runs.{run_text, list_text, list_row, fields_text};

use engine::doonamurk_run;
use layout::fields_of;
use list_text::{put_entries, put_refused, put_separated};
use listing::entries_of;
use opening::last_year_of;
use reader::doonamurk_read;
use rules::{ACCEPTED, MOST_ENTRIES, MOST_FIELDS};
use valuation::{record_start, year_of};

// The list of a record with a byte between its entries.
#[tactic(auto, using(crate::proofs::Texts::run_refused, crate::proofs::Texts::run_some, crate::proofs::Texts::run_accepted))]
fn put_run(out: &mut [u8], at: usize, year: u64, packed: &[u8], between: u8) -> usize
    ensures { Put out.old out.new at result (run_text between year packed.now) }
{
    let mut list = [0i64; MOST_ENTRIES];
    let answer = doonamurk_run(year, packed, &mut list);
    if answer != ACCEPTED {
        return put_refused(out, at, answer);
    }
    put_separated(out, at, &list, entries_of(last_year_of(packed)), between)
}

// The list of an input, a valuation year and a record, one entry a line.
pub fn put_list(out: &mut [u8], at: usize, input: &[u8]) -> usize
    ensures { Put out.old out.new at result (list_text (year_in input.now) (record_in input.now)) }
{
    let from = record_start(input);
    let year = year_of(input);
    put_run(out, at, year, &input[from..], 10)
}

// The list of a record on one line.
pub fn put_list_row(out: &mut [u8], at: usize, year: u64, packed: &[u8]) -> usize
    ensures { Put out.old out.new at result (list_row year packed.now) }
{
    put_run(out, at, year, packed, 32)
}

// The fields of a record, one a line.
pub fn put_fields(out: &mut [u8], at: usize, packed: &[u8]) -> usize
    ensures { Put out.old out.new at result (fields_text packed.now) }
{
    let mut list = [0i64; MOST_FIELDS];
    let number = doonamurk_read(packed, &mut list);
    if number != ACCEPTED {
        return put_refused(out, at, number);
    }
    put_entries(out, at, &list, fields_of(last_year_of(packed)))
}
