// Test of the writer. A number on standard input is a sign byte, 1 for negative, and a size of seven bytes, high byte first. Each case is the
// length of the buffer, k, the weight, the amount still to be paid, and then each of the five lists with its length before it. The buffer is lent
// full of 165. Writes the answer, and then the buffer's bytes in hexadecimal after an answer of 0, or whether a refusal left it unchanged.
#![tactic(auto)]

ghost use Rattle.std.specs.Prelude.{◌≡◌, ◌<◌, ◌≤◌, ◌^◌, length, take, IfSome};

use packing::field;
use printing::{put_number, put_text, read_full};
use writing::doonamurk_write;

// A number and its size, and whether it was read whole.
#[derive(Clone, Copy)]
pub struct Number {
    pub whole: bool,
    pub size: u64,
    pub value: i64,
}

// A list of at most 160 numbers and their sizes.
#[derive(Clone, Copy)]
pub struct List {
    pub count: usize,
    pub sizes: [u64; 160],
    pub values: [i64; 160],
}

// The number of this size that is negative where the sign is 1.
fn signed(sign: u8, size: u64) -> i64
    requires { size < 2 ^ 56 }
{
    let value = size as i64;
    if sign == 1 { -value } else { value }
}

// The next number. On a terminal more may follow the end of the input, so that each is asked for, whatever came of the one before it.
fn read_number(rt: &HostRuntime) -> Number {
    let mut bytes = [0u8; 8];
    let got = read_full(rt, &mut bytes);
    let size = field(&bytes, 8, 56);
    Number {
        whole: got == 8,
        size,
        value: signed(bytes[0], size),
    }
}

// The next list, none where its last number was not read whole or it is too long. Its count lies within both arrays, which lending a part of one needs.
fn read_list(rt: &HostRuntime) -> Option<List>
    ensures { IfSome result (λ l. ((l.count ≤ length l.sizes) × (l.count ≡ length (take l.count l.sizes)))
        × ((l.count ≤ length l.values) × (l.count ≡ length (take l.count l.values)))) }
{
    let mut sizes = [0u64; 160];
    let mut values = [0i64; 160];
    let head = read_number(rt);
    if head.size > 160 {
        return None;
    }
    let count = head.size as usize;
    let mut whole = head.whole;
    for (size, value) in sizes[..count].iter_mut().zip(&mut values[..count]) {
        let x = read_number(rt);
        whole = x.whole;
        *size = x.size;
        *value = x.value;
    }
    if !whole {
        return None;
    }
    Some(List {
        count,
        sizes,
        values,
    })
}

// Whether each byte is still 165.
fn unchanged(bytes: &[u8]) -> bool {
    bytes.iter().all(|b| *b == 165)
}

// Writes the bytes in hexadecimal, two digits each.
fn put_hexadecimal(rt: &HostRuntime, bytes: &[u8]) {
    for byte in bytes {
        let _ = print!(rt; "{byte:02x}");
    }
}

// Shows what the writer makes of these fields.
fn show(
    rt: &HostRuntime,
    k: u64,
    exposures: &[u64],
    increments: &[i64],
    indices: &[u64],
    reporting: &[u64],
    weight: u64,
    totals: &[u64],
    tail: u64,
    buffer: &mut [u8],
) {
    let answer = doonamurk_write(
        k, exposures, increments, indices, reporting, weight, totals, tail, buffer,
    );
    put_text(rt, b"answer ");
    put_number(rt, answer);
    put_text(rt, b"\n");
    if answer == 0 {
        put_hexadecimal(rt, buffer);
        put_text(rt, b"\n");
    } else if unchanged(buffer) {
        put_text(rt, b"unchanged\n");
    } else {
        put_text(rt, b"changed\n");
    }
}

// One case, none where a list was not read whole, or a list or the buffer is too long.
fn case(rt: &HostRuntime) -> Option<()> {
    let size = read_number(rt).size;
    let k = read_number(rt).size;
    let weight = read_number(rt).size;
    let tail = read_number(rt).size;
    let exposures = read_list(rt);
    let increments = read_list(rt);
    let indices = read_list(rt);
    let reporting = read_list(rt);
    let totals = read_list(rt);
    let exposures = exposures?;
    let increments = increments?;
    let indices = indices?;
    let reporting = reporting?;
    let totals = totals?;
    if size > 1000 {
        return None;
    }
    let mut buffer = [165u8; 1000];
    let room = size as usize;
    let a = exposures.count;
    let b = increments.count;
    let c = indices.count;
    let d = reporting.count;
    let e = totals.count;
    let exposures = exposures.sizes;
    let increments = increments.values;
    let indices = indices.sizes;
    let reporting = reporting.sizes;
    let totals = totals.sizes;
    show(
        rt,
        k,
        &exposures[..a],
        &increments[..b],
        &indices[..c],
        &reporting[..d],
        weight,
        &totals[..e],
        tail,
        &mut buffer[..room],
    );
    Some(())
}

fn main(rt: HostRuntime) {
    for _ in 0..1000usize {
        if case(&rt).is_none() {
            return;
        }
    }
}
