// The input of a report's program: years, title, a line of inflation and the record.
#![tactic(auto)]

ghost use Rattle.std.specs.Prelude.{◌≡◌, ◌<◌, get_or};
ghost use Rattle.titled_input.specs.Titled.{first_in, Split};

// Where the title starts and where it ends, at the length of the line of inflation, where the line starts, and where it ends and the record starts.
#[derive(Clone, Copy)]
pub struct Parts {
    pub title: usize,
    pub sized: usize,
    pub rates: usize,
    pub packed: usize,
}

// The byte at place p, 0 where the input ends before it.
fn byte_at(input: &[u8], p: usize) -> usize
    ensures { (result ≡ get_or input.now p 0) × (result < 256) }
{
    if p < input.len() {
        usize::from(input[p])
    } else {
        0
    }
}

// The first year, 0 for none.
pub fn first_of(input: &[u8]) -> usize
    ensures { (result ≡ first_in input.now) × (result < 65536) }
{
    let high = byte_at(input, 2);
    let low = byte_at(input, 3);
    256 * high + low
}

// The parts of the input from the title on.
pub fn parts_of(input: &[u8]) -> Parts
    ensures { Split input.now result }
{
    let n = input.len();
    let end = 5 + byte_at(input, 4);
    let size = byte_at(input, end);
    Parts {
        title: n.min(5),
        sized: n.min(end),
        rates: n.min(end + 1),
        packed: n.min(end + 1 + size),
    }
}
