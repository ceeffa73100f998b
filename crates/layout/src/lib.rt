// The places of a record's rows by k, and its sizes.
#![tactic(auto)]

ghost use Rattle.std.specs.Prelude.{◌≡◌, ◌+◌, ◌<◌, ◌≤◌};
ghost use Rattle.rules.specs.Record.{cells, byte_count, field_count, most_bytes, most_fields};
ghost use Rattle.layout.specs.Places.{places_of};

// How many cells the triangle has, the bit places at which the increments and the rows after them start, and where the fields end.
#[derive(Clone, Copy)]
pub struct Places {
    pub cells: usize,
    pub increments: usize,
    pub indices: usize,
    pub reporting: usize,
    pub weight: usize,
    pub ulae: usize,
    pub tail: usize,
    pub end: usize,
}

pub fn cells_of(k: usize) -> usize
    requires { k < 16 }
    ensures { (result ≡ cells k) × (result ≤ 136) }
{
    (k + 1) * (k + 2) / 2
}

pub fn places_of(k: usize) -> Places
    requires { k < 16 }
    ensures { result ≡ places_of k }
{
    let cells = cells_of(k);
    let increments = 24 + 20 * k;
    let indices = increments + 35 * cells;
    let reporting = indices + 23 * (k + 1);
    let weight = reporting + 20 * (k + 1);
    let ulae = weight + 20;
    let tail = ulae + 34 * (k + 1);
    let end = tail + 34;
    Places {
        cells,
        increments,
        indices,
        reporting,
        weight,
        ulae,
        tail,
        end,
    }
}

// How many bytes a record takes.
pub fn bytes_of(k: usize) -> usize
    requires { k < 16 }
    ensures { (result ≡ byte_count k) × (result ≤ most_bytes) }
{
    (places_of(k).end + 7) / 8
}

// How many fields a record has.
pub fn fields_of(k: usize) -> usize
    requires { k < 16 }
    ensures { (result ≡ field_count k) × (result ≤ most_fields) }
{
    cells_of(k) + 4 * k + 7
}
