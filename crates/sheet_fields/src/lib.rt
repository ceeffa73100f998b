// The fields of a record in a list, handed to the writer row by row.
#![tactic(auto)]

ghost use Rattle.std.specs.Prelude.{◌≡◌, ◌++◌, map, ◌+◌, ◌≤◌, ◌<◌, nat_abs, length, take, drop};
ghost use Rattle.rules.specs.Lists.{padded};
ghost use Rattle.rules.specs.Record.{byte_count, most_bytes, most_fields};
ghost use Rattle.rules.specs.Writing.{given_at, write_answer, write_into};
ghost use Rattle.sheet_fields.specs.FieldRows.{rows_of};

use entries::size_of;
use layout::{bytes_of, cells_of};
use writing::doonamurk_write;

// The rows of natural numbers of a record.
#[derive(Clone, Copy)]
pub struct Rows {
    pub exposures: [u64; 16],
    pub indices: [u64; 16],
    pub reporting: [u64; 16],
    pub weight: u64,
    pub ulae: [u64; 16],
    pub tail: u64,
}

// The sizes of n entries of a list from place `at` on.
fn sizes_of(list: &[i64], at: usize, n: usize) -> [u64; 16]
    requires { (n ≤ 16) × (at + n ≤ length list.now) }
    ensures { result ≡ padded 16 0 (map nat_abs (take n (drop at list.now))) }
{
    let mut sizes = [0u64; 16];
    for (i, z) in list[at..at + n].iter().enumerate() {
        sizes[i] = size_of(*z);
    }
    sizes
}

// The rows of natural numbers of the years 0 to k, of a list that starts with the fields.
fn rows_of(list: &[i64], k: usize) -> Rows
    requires { (k < 16) × (length list.now ≡ most_fields) }
    ensures { result ≡ rows_of k list.now }
{
    let n = k + 1;
    let a = k + 2 + cells_of(k);
    let b = a + n;
    let w = b + n;
    let u = w + 1;
    let exposures = sizes_of(list, 1, n);
    let indices = sizes_of(list, a, n);
    let reporting = sizes_of(list, b, n);
    let weight = size_of(list[w]);
    let ulae = sizes_of(list, u, n);
    let tail = size_of(list[u + n]);
    Rows {
        exposures,
        indices,
        reporting,
        weight,
        ulae,
        tail,
    }
}

// Writes the record of the years 0 to k into the front of the buffer, from a list that starts with the fields.
pub fn write_fields(list: &[i64], k: usize, buffer: &mut [u8]) -> u64
    requires { (k < 16) × ((length list.now ≡ most_fields) × (length buffer.old ≡ most_bytes)) }
    ensures { (result ≡ write_answer (given_at k list.now) (byte_count k))
        × (buffer.new
        ≡ write_into (given_at k list.now) (take (byte_count k) buffer.old) ++ drop (byte_count k) buffer.old) }
{
    let rows = rows_of(list, k);
    let exposures = rows.exposures;
    let indices = rows.indices;
    let reporting = rows.reporting;
    let ulae = rows.ulae;
    let n = k + 1;
    let a = k + 2;
    let e = a + cells_of(k);
    let m = bytes_of(k);
    doonamurk_write(
        k as u64,
        &exposures[..n],
        &list[a..e],
        &indices[..n],
        &reporting[..n],
        rows.weight,
        &ulae[..n],
        rows.tail,
        &mut buffer[..m],
    )
}
