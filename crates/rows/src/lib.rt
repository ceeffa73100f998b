// A section of the result list cut into rows.
#![tactic(auto)]

ghost use Rattle.std.specs.Prelude.{◌≡◌, ◌-◌, ◌≤◌};
ghost use Rattle.rules.specs.Results.{most_entries};
ghost use Rattle.rows.specs.Rows.{falling, rising, level, next_row};

// The blank columns and the entries of the first row, and how many entries a next row has more, in place of blank columns, or fewer.
#[derive(Clone, Copy)]
pub struct Rows {
    pub blank: usize,
    pub count: usize,
    pub up: usize,
    pub down: usize,
}

// n entries in the first row, and in each next row one fewer.
pub fn falling_from(n: usize) -> Rows
    ensures { result ≡ falling n }
{
    Rows {
        blank: 0,
        count: n,
        up: 0,
        down: 1,
    }
}

// n blank columns in the first row, and in each next row one entry more.
pub fn rising_from(n: usize) -> Rows
    ensures { result ≡ rising n }
{
    Rows {
        blank: n,
        count: 0,
        up: 1,
        down: 0,
    }
}

// m entries in each row, after n blank columns.
pub fn level_at(n: usize, m: usize) -> Rows
    ensures { result ≡ level n m }
{
    Rows {
        blank: n,
        count: m,
        up: 0,
        down: 0,
    }
}

// a − b, or 0 where b is the larger.
fn less(a: usize, b: usize) -> usize
    ensures { result ≡ a - b }
{
    if b < a { a - b } else { 0 }
}

// The row after a row of r.
pub fn next_row(r: Rows) -> Rows
    requires { (r.count ≤ most_entries) × (r.up ≤ 1) }
    ensures { result ≡ next_row r }
{
    Rows {
        blank: less(r.blank, r.up),
        count: less(r.count + r.up, r.down),
        up: r.up,
        down: r.down,
    }
}
