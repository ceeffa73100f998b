// Numbers, lists and texts on standard output, what is wrong on standard error, and records, alone or behind a valuation year, from standard input. What arrives there is outside the
// contracts: the kit says nothing of what a read or a write leaves behind, so the routines promise only that they are safe and end, and the gate
// compares what each program writes with its stored output. A write that fails changes nothing of what follows, but where a routine says otherwise.
#![tactic(auto)]

ghost use Rattle.std.specs.Prelude.{◌≤◌, length};
ghost use Rattle.printing.specs.Counts.{IsPrefixLen};

use kinds::is_text;
use std::io::Read;

// Writes text as it is.
pub fn put_text(rt: &HostRuntime, text: &[u8]) {
    let _ = rt.write_all(text);
}

// Writes n in decimal.
pub fn put_number(rt: &HostRuntime, n: u64) {
    let _ = rt.print(n);
}

// Writes x in decimal, with its sign where it is below zero, and a line end.
pub fn put_line(rt: &HostRuntime, x: i64) {
    let _ = rt.println(x);
}

// Writes the first n entries of a list, one a line.
pub fn put_lines(rt: &HostRuntime, list: &[i64], n: usize)
    requires { n ≤ length list.now }
{
    for x in &list[..n] {
        put_line(rt, *x);
    }
}

// Whether each entry is still the one that was lent.
fn unchanged(list: &[i64], lent: i64) -> bool {
    list.iter().all(|x| *x == lent)
}

// Writes the answer of a call that was lent this list full of one value, and then the whole list after an answer of 0, or whether a refusal
// left it unchanged.
pub fn put_outcome(rt: &HostRuntime, answer: u64, list: &[i64], lent: i64) {
    put_text(rt, b"answer ");
    put_number(rt, answer);
    put_text(rt, b"\n");
    if answer == 0 {
        put_lines(rt, list, list.len());
    } else if unchanged(list, lent) {
        put_text(rt, b"unchanged\n");
    } else {
        put_text(rt, b"changed\n");
    }
}

// Writes the first n bytes of a text to a stream, and all of it where it is shorter; whether all of that was written.
pub fn put_first(to: &impl Print, text: &[u8], n: usize) -> bool {
    to.write_all(&text[..n.min(text.len())]).is_ok()
}

// Writes the first n bytes of a text to standard output, and says so on standard error where they cannot be written.
pub fn put_output(rt: &HostRuntime, text: &[u8], n: usize) {
    if !put_first(rt, text, n) {
        say(rt, b"the output could not be written\n");
    }
}

// Says a line on standard error.
pub fn say(rt: &HostRuntime, line: &[u8]) {
    let _ = rt.stderr().write_all(line);
}

// Says n in decimal on standard error.
pub fn say_number(rt: &HostRuntime, n: u64) {
    let _ = rt.eprint(n);
}

// Writes a text that was composed in a buffer and ends before place n. One that fills its buffer may have been cut: it is not written.
pub fn put_composed(rt: &HostRuntime, text: &[u8], n: usize) {
    if n < text.len() {
        put_output(rt, text, n);
    } else {
        say(rt, b"the output does not fit its buffer of ");
        say_number(rt, text.len() as u64);
        say(rt, b" bytes\n");
    }
}

// What was read: how many bytes, and whether a read failed after them.
#[derive(Clone, Copy)]
pub struct Arrived {
    pub size: usize,
    pub failed: bool,
}

// One read of standard input; no bytes where it failed or the input has ended.
pub fn read_once(rt: &HostRuntime, buf: &mut [u8]) -> Arrived
    ensures { IsPrefixLen result.size buf.new }
{
    let mut input = rt.stdin();
    match input.read(buf) {
        Ok(size) => Arrived {
            size,
            failed: false,
        },
        Err(_) => Arrived {
            size: 0,
            failed: true,
        },
    }
}

// Reads standard input until the buffer is full, the input ends or a read fails.
pub fn read_input(rt: &HostRuntime, buf: &mut [u8]) -> Arrived
    ensures { IsPrefixLen result.size buf.new }
{
    let mut done: usize = 0;
    let length = buf.len();
    while done < length {
        let more = read_once(rt, &mut buf[done..]);
        if more.size == 0 {
            return Arrived {
                size: done,
                failed: more.failed,
            };
        }
        done += more.size;
    }
    Arrived {
        size: done,
        failed: false,
    }
}

// Reads standard input until the buffer is full, the input ends or a read fails, and answers how many bytes arrived.
pub fn read_full(rt: &HostRuntime, buf: &mut [u8]) -> usize
    ensures { IsPrefixLen result buf.new }
{
    read_input(rt, buf).size
}

// Reads standard input and answers how many bytes arrived; 0 where none did or a read failed, after saying so.
pub fn read_some(rt: &HostRuntime, buf: &mut [u8]) -> usize
    ensures { IsPrefixLen result buf.new }
{
    let arrived = read_input(rt, buf);
    let size = arrived.size;
    if arrived.failed {
        say(rt, b"the input could not be read\n");
        return 0;
    }
    if size == 0 {
        say(rt, b"nothing arrived: no record on standard input\n");
    }
    size
}

// Says that a text arrived, and what to do first.
pub fn say_text(rt: &HostRuntime, first: &[u8]) {
    say(
        rt,
        b"this is a text, not a record: make a record of it with pack first",
    );
    say(rt, first);
}

// Reads the record on standard input and answers how many bytes it has; 0 where none arrived, after saying why.
pub fn read_record(rt: &HostRuntime, buf: &mut [u8]) -> usize
    ensures { IsPrefixLen result buf.new }
{
    let size = read_some(rt, buf);
    if is_text(&buf[..size]) {
        say_text(rt, b"\n");
        return 0;
    }
    size
}

// Whether an input is a text where a valuation year and a record are due, behind the two bytes of a year or from the start. One or two bytes are a year's,
// which may be printable, and no text.
fn is_text_for_record(input: &[u8]) -> bool {
    input.len() > 2 && (is_text(input) || is_text(&input[2..]))
}

// Reads the valuation year and the record on standard input and answers how many bytes both have; 0 where none arrived, after saying why. An input that ends
// before the record, or within the year, has no record: the engine refuses it.
pub fn read_valuation(rt: &HostRuntime, buf: &mut [u8]) -> usize
    ensures { IsPrefixLen result buf.new }
{
    let size = read_some(rt, buf);
    if is_text_for_record(&buf[..size]) {
        say_text(rt, b", and put the valuation year in two bytes before it\n");
        return 0;
    }
    size
}
