// A record from its fields, each in its range, packed into a lent buffer.
#![tactic(auto)]

ghost use Rattle.std.specs.Prelude.{◌≡◌, true, map, ◌*◌, ◌<◌, ◌^◌, length, replicate};
ghost use Rattle.rules.specs.Packing.{pack};
ghost use Rattle.rules.specs.Record.{figures, increment, in_range, code_of, record_of};
ghost use Rattle.rules.specs.Writing.{given_fields};
ghost use Rattle.rules.specs.Lists.{every};
ghost use Rattle.packing.specs.Field.{Packable, PackedOn};
ghost use Rattle.recording.specs.Writable.{Writable};

use layout::places_of;
use packing::{Pending, put, put_row};
use rules::SIGN;

// The bits of an increment: its sign bit and 34 bits of size.
fn code_of(p: i64) -> u64
    requires { in_range increment p ≡ true }
    ensures { (result ≡ code_of increment p) × (result < 2 ^ 35) }
{
    let size = p.unsigned_abs();
    if p < 0 { SIGN + size } else { size }
}

// The increments after what is packed.
fn put_increments(buffer: &mut [u8], p: Pending, ps: &[i64]) -> Pending
    requires { Packable buffer.old p (35 * length ps.now) × (every (in_range increment) ps.now ≡ true) }
    ensures { PackedOn buffer.old buffer.new p result (35 * length ps.now)
        (pack (replicate (length ps.now) 35) (map (code_of increment) ps.now)) }
{
    let mut q = p;
    for x in ps {
        q = put(buffer, q, 35, code_of(*x));
    }
    q
}

// The record goes into the buffer, field after field, and zero bits to the byte end.
pub fn put_record(
    k: u64,
    exposures: &[u64],
    increments: &[i64],
    indices: &[u64],
    reporting: &[u64],
    weight: u64,
    ulae: &[u64],
    tail: u64,
    buffer: &mut [u8],
)
    requires { Writable
        (figures k exposures.now increments.now indices.now reporting.now weight ulae.now tail)
        (length buffer.old) }
    ensures { buffer.new
        ≡ record_of k
        (given_fields
        (figures k exposures.now increments.now indices.now reporting.now weight ulae.now tail)) }
{
    let none = Pending {
        at: 0,
        count: 0,
        bits: 0,
    };
    let a = put(buffer, none, 4, k);
    let b = put_row(buffer, a, 20, exposures);
    let c = put_increments(buffer, b, increments);
    let d = put_row(buffer, c, 23, indices);
    let e = put_row(buffer, d, 20, reporting);
    let f = put(buffer, e, 20, weight);
    let g = put_row(buffer, f, 34, ulae);
    let h = put(buffer, g, 34, tail);
    let end = places_of(k as usize).end;
    put(buffer, h, 8 * buffer.len() - end, 0);
}
