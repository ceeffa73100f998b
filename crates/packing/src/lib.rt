// Fields of a row of bits, most significant bit first: read at any place, and packed one after another.
#![tactic(auto)]

ghost use Rattle.std.specs.Prelude.{◌≡◌, ◌+◌, ◌*◌, ◌<◌, ◌≤◌, ◌^◌, length, replicate};
ghost use Rattle.rules.specs.Packing.{pack, Fit};
ghost use Rattle.packing.specs.Field.{field_at, FieldInside, Packable, PackedOn};

// What is packed and not yet written: the first `count` bits of byte `at`, fewer than 8, as a number. The bytes before it are written.
#[derive(Clone, Copy)]
pub struct Pending {
    pub at: usize,
    pub count: usize,
    pub bits: u64,
}

// x, the n bytes from place i on as one number, with the next byte after them.
fn followed(s: &[u8], i: usize, n: usize, x: u64) -> u64
    requires { (i + n < length s.now) × ((n < 8) × (x ≡ field_at s.now (8 * i) (8 * n))) }
    ensures { result ≡ field_at s.now (8 * i) (8 * n + 8) }
{
    (x << 8) + u64::from(s[i + n])
}

// The eight bytes from place i on as one number. Byte after byte, it compiles to one load.
fn word(s: &[u8], i: usize) -> u64
    requires { i + 8 ≤ length s.now }
    ensures { result ≡ field_at s.now (8 * i) 64 }
{
    let a = followed(s, i, 0, 0);
    let b = followed(s, i, 1, a);
    let c = followed(s, i, 2, b);
    let d = followed(s, i, 3, c);
    let e = followed(s, i, 4, d);
    let f = followed(s, i, 5, e);
    let g = followed(s, i, 6, f);
    followed(s, i, 7, g)
}

// The field of w bits from bit place `at` on. The word it is cut from starts at the field's first byte, or where the last word starts.
pub fn field(s: &[u8], at: usize, w: usize) -> u64
    requires { FieldInside s.now at w }
    ensures { result ≡ field_at s.now at w }
{
    let i = (at / 8).min(s.len() - 8);
    let after = 8 * i + 64 - at - w;
    (word(s, i) >> after) % (1u64 << w)
}

// The w bits of x after those that are packed. Whole bytes go into the buffer, the rest stays pending.
pub fn put(buffer: &mut [u8], p: Pending, w: usize, x: u64) -> Pending
    requires { Packable buffer.old p w × ((w ≤ 56) × (x < 2 ^ w)) }
    ensures { PackedOn buffer.old buffer.new p result w x }
{
    let mut at = p.at;
    let mut count = p.count + w;
    let mut bits = (p.bits << w) + x;
    while 8 <= count {
        count -= 8;
        buffer[at] = ((bits >> count) % 256) as u8;
        bits %= 1u64 << count;
        at += 1;
    }
    Pending { at, count, bits }
}

// The fields vs of w bits each after those that are packed.
pub fn put_row(buffer: &mut [u8], p: Pending, w: usize, vs: &[u64]) -> Pending
    requires { Packable buffer.old p (w * length vs.now) × ((w ≤ 56) × Fit w vs.now) }
    ensures { PackedOn buffer.old buffer.new p result (w * length vs.now) (pack (replicate (length vs.now) w) vs.now) }
{
    let mut q = p;
    for v in vs {
        q = put(buffer, q, w, *v);
    }
    q
}
