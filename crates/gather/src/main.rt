// Writes the files that its arguments name to standard output, each behind its length (two bytes, high byte first), as `reserve_many` reads them. Of a
// file it takes at most 4,096 bytes, more than any record has, so that a longer one is refused as it is alone. A text stands as a record without bytes, and
// so does a file that cannot be read, which is told on standard error; so every file has its place.
#![tactic(auto)]

ghost use Rattle.std.specs.Prelude.{◌≤◌, IfSome, length};

use kinds::is_text;
use std::env::{Env, FillError};
use std::fs;
use std::io::Read;

// Tells on standard error what could not be done with which file.
fn tell(rt: &HostRuntime, what: &[u8], name: &[u8]) {
    let errors = rt.stderr();
    let _ = errors.write_all(what);
    let _ = errors.write_all(name);
    let _ = errors.write_all(b"\n");
}

// Writes a record behind its length; whether it could be written.
fn put_record(rt: &HostRuntime, record: &[u8]) -> bool {
    let n = record.len();
    let length = [(n / 256 % 256) as u8, (n % 256) as u8];
    rt.write_all(&length).is_ok() && rt.write_all(record).is_ok()
}

// The first bytes of a file go into the buffer: how many, or none where it cannot be read. A name that is no UTF-8 names no file that can be read.
fn read_file(rt: &HostRuntime, name: &[u8], buffer: &mut [u8]) -> Option<usize>
    ensures { IfSome result (λ n. n ≤ length buffer.new) }
{
    let path = str::from_utf8(name).ok()?;
    let mut file = fs::open(rt, path).ok()?;
    file.read(buffer).ok()
}

// Writes the file of this name; whether it could be written.
fn put_file(rt: &HostRuntime, name: &[u8]) -> bool {
    let mut bytes = [0u8; 4096];
    let Some(n) = read_file(rt, name, &mut bytes) else {
        tell(rt, b"could not be read: ", name);
        return put_record(rt, b"");
    };
    let read = &bytes[..n];
    if is_text(read) {
        return put_record(rt, b"");
    }
    put_record(rt, read)
}

// What became of the file that an argument names.
enum Put {
    Written,
    Failed,
    // There is no such argument.
    Past,
}

// Writes the file that argument i names. One that is longer than any path names no file.
fn put_argument(rt: &HostRuntime, i: usize) -> Put {
    let mut name = [0u8; 4096];
    let n = match rt.arg(i, &mut name) {
        Ok(n) => n,
        Err(FillError::TooLong) => 0,
        Err(FillError::NotPresent) => return Put::Past,
    };
    if put_file(rt, &name[..n]) {
        Put::Written
    } else {
        Put::Failed
    }
}

fn main(rt: HostRuntime) {
    for i in 1..usize::MAX {
        match put_argument(&rt, i) {
            Put::Written => {}
            Put::Failed => {
                tell(&rt, b"the output could not be written", b"");
                return;
            }
            Put::Past => return,
        }
    }
}
