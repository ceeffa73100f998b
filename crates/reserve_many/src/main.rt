// Runs the engine on each record of the stream on standard input, where the valuation year of all of them stands first, in two bytes with the high one first,
// and then each record behind its length, in two bytes too. Prints a line for each: the entries of its result list with blanks between them, or `refused` and
// the number.
#![tactic(auto)]

ghost use Rattle.std.specs.Prelude.{◌+◌, ◌≤◌, length};

use list_stream::{Taken, move_down, put_rows};
use printing::{put_first, read_input, read_once, say, say_number};
use valuation::year_of;

// Twice the most that a record and its length can take, so that there is always room to read more.
const INPUT: usize = 131_072;

// The bytes of the text: several rows.
const TEXT: usize = 65_536;

// A loop must end: so many turns are never made.
const TURNS: usize = 9_000_000_000_000_000_000;

// Whether a read failed, and how many bytes of the input are pending after it.
#[derive(Clone, Copy)]
struct Filled {
    failed: bool,
    have: usize,
}

// Takes the whole records among the pending bytes, and puts their rows into the text.
fn rows_of(year: u64, input: &[u8], from: usize, have: usize, text: &mut [u8]) -> Taken
    requires { (from ≤ have) × (have ≤ length input.now) }
    ensures { from + result.from ≤ have }
{
    put_rows(year, &input[from..have], text)
}

// The same of the program's arrays.
fn take_rows(
    year: u64,
    input: &[u8; INPUT],
    from: usize,
    have: usize,
    text: &mut [u8; TEXT],
) -> Taken
    requires { (from ≤ have) × (have ≤ 131072) }
    ensures { from + result.from ≤ have }
{
    rows_of(year, input, from, have, text)
}

// Writes the first n bytes of the text.
fn write_rows(rt: &HostRuntime, text: &[u8; TEXT], n: usize) -> bool {
    put_first(rt, text, n)
}

// Moves the pending bytes to the start and reads more behind them.
fn read_more(rt: &HostRuntime, input: &mut [u8], from: usize, have: usize) -> Filled
    requires { (from ≤ have) × (have ≤ length input.old) }
    ensures { result.have ≤ length input.old }
{
    let rest = have - from;
    move_down(input, from, have);
    let more = read_once(rt, &mut input[rest..]);
    Filled {
        failed: more.failed,
        have: rest + more.size,
    }
}

// The same of the program's array.
fn refill(rt: &HostRuntime, input: &mut [u8; INPUT], from: usize, have: usize) -> Filled
    requires { (from ≤ have) × (have ≤ 131072) }
    ensures { result.have ≤ 131072 }
{
    read_more(rt, input, from, have)
}

// Says that the input ends within the record of this place, counted from 1.
fn say_cut(rt: &HostRuntime, place: u64) {
    say(rt, b"the input ends within record ");
    say_number(rt, place);
    say(rt, b"\n");
}

// Reads the records behind the year, and writes the line of each.
fn put_all(rt: &HostRuntime, year: u64) {
    let mut input = [0u8; INPUT];
    let mut text = [0u8; TEXT];
    let mut from: usize = 0;
    let mut have: usize = 0;
    let mut place: u64 = 1;
    for turn in 0..TURNS {
        let taken = take_rows(year, &input, from, have, &mut text);
        if !write_rows(rt, &text, taken.end) {
            say(rt, b"the output could not be written\n");
            return;
        }
        from += taken.from;
        place = place.wrapping_add(taken.count as u64);
        if taken.count == 0 {
            let rest = have - from;
            let filled = refill(rt, &mut input, from, have);
            if filled.failed {
                say(rt, b"the input could not be read\n");
                return;
            }
            from = 0;
            have = filled.have;
            if have == rest {
                if rest > 0 {
                    say_cut(rt, place);
                }
                return;
            }
        }
    }
}

fn main(rt: HostRuntime) {
    let mut head = [0u8; 2];
    let arrived = read_input(&rt, &mut head);
    if arrived.failed {
        say(&rt, b"the input could not be read\n");
        return;
    }
    if arrived.size < 2 {
        say(&rt, b"the input ends within the valuation year\n");
        return;
    }
    put_all(&rt, year_of(&head));
}
