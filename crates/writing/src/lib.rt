// The writer: a record from its fields, or the number of the first question that says no.
#![tactic(auto)]

ghost use Rattle.std.specs.Prelude.{◌≡◌, length};
ghost use Rattle.rules.specs.Record.{figures};
ghost use Rattle.rules.specs.Writing.{write_answer, write_into};

use entries::sum_of;
use given_fields::{given_last_year, given_lengths, given_ranges};
use recording::put_record;
use rules::{ACCEPTED, MILLION};

// Fills the buffer with the record of these fields and answers 0, or leaves it and answers the number of the first of questions 1, 2, 4
// and 5 that says no. Question 2 is asked of the buffer's length and of each list's. `tail` is the amount still to be paid for year 0 after year k.
#[unsafe(no_mangle)]
pub extern "C" fn doonamurk_write(
    k: u64,
    exposures: &[u64],
    increments: &[i64],
    indices: &[u64],
    reporting: &[u64],
    weight: u64,
    ulae: &[u64],
    tail: u64,
    buffer: &mut [u8],
) -> u64
    ensures { (result
        ≡ write_answer
        (figures k exposures.now increments.now indices.now reporting.now weight ulae.now tail)
        (length buffer.old))
        × (buffer.new
        ≡ write_into
        (figures k exposures.now increments.now indices.now reporting.now weight ulae.now tail)
        buffer.old) }
{
    if !given_last_year(k) {
        return 1;
    }
    if !given_lengths(
        k as usize,
        buffer.len(),
        exposures.len(),
        increments.len(),
        indices.len(),
        reporting.len(),
        ulae.len(),
    ) {
        return 2;
    }
    if !given_ranges(
        exposures, increments, indices, reporting, weight, ulae, tail,
    ) {
        return 4;
    }
    if sum_of(reporting, reporting.len()) != MILLION {
        return 5;
    }
    put_record(
        k, exposures, increments, indices, reporting, weight, ulae, tail, buffer,
    );
    ACCEPTED
}
