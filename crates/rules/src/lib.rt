// The factors of a separation and the rates of inflation as the code holds them, and the limits of the rules. The rules themselves stand in specs/.
#![tactic(auto)]

// What a call answers where every question says yes.
pub const ACCEPTED: u64 = 0;
// M of document 01: the most of an exposure, a reporting share, the weight and a ULAE ratio, and the sum of the reporting shares.
pub const MILLION: u64 = 1_000_000;
// S of document 01, one whole in billionths: the most of a level, of the total of averages and of the average still to be paid for year 0.
pub const BILLION: u64 = 1_000_000_000;
// The most of a future index.
pub const MOST_INDEX: u64 = 5_000_000;
// The most of an increment's size, of a ULAE total and of the amount still to be paid after the last year.
pub const MOST_AMOUNT: u64 = 10_000_000_000;
// The weight of an increment's sign bit, which stands before 34 bits of size.
pub const SIGN: u64 = 17_179_869_184;
// The most of a tail average, 5 times S.
pub const MOST_TAIL_AVERAGE: u64 = 5_000_000_000;
// The most of a cumulative, given or completed.
pub const MOST_CUMULATIVE: u64 = 100_000_000_000;
// The most of an ultimate.
pub const MOST_ULTIMATE: u64 = 1_000_000_000_000;
// The most of a development factor.
pub const MOST_FACTOR: u64 = 50_000_000;
// The first valuation year whose ULAE ratio is corrected.
pub const FIRST_CORRECTED_YEAR: u64 = 2027;
// The most of a record's bytes and fields and of a result list's entries: those of k = 15.
pub const MOST_BYTES: usize = 797;

pub const MOST_FIELDS: usize = 203;

pub const MOST_ENTRIES: usize = 505;
// The most origin years of a history, the least and the most of a window's width, and the most of a history's cells and of its list's entries: those of 64 years, and
// of windows of 16.
pub const MOST_HISTORY: usize = 64;

pub const LEAST_WIDTH: usize = 2;

pub const MOST_WIDTH: usize = 16;

pub const MOST_HISTORY_CELLS: usize = 904;

pub const MOST_HISTORY_ENTRIES: usize = 1617;
// The most settings of a hindsight run, and the most entries of its report: those of k = 15 and eight settings.
pub const MOST_SETTINGS: usize = 8;

pub const MOST_HINDSIGHT: usize = 961;

// The figures of a record of the years 0 to k, each list zero past its end: the exposures, the increments by row, the future indices, e_t at place t - 1, the reporting
// shares, the reporting weight, the ULAE totals and the amount still to be paid for year 0 after year k.
#[derive(Clone, Copy)]
pub struct Figures {
    pub k: usize,
    pub exposures: [u64; 16],
    pub increments: [i64; 136],
    pub indices: [u64; 16],
    pub reporting: [u64; 16],
    pub weight: u64,
    pub ulae: [u64; 16],
    pub tail: u64,
}

// Figures that nothing has been read into.
pub const NO_FIGURES: Figures = Figures {
    k: 0,
    exposures: [0; 16],
    increments: [0; 136],
    indices: [0; 16],
    reporting: [0; 16],
    weight: 0,
    ulae: [0; 16],
    tail: 0,
};

// Shares and levels of the years 0 to k as one set of factors, zero past them. A share counts billionths, a level hundredths a claim.
#[derive(Clone, Copy)]
pub struct Factors {
    pub shares: [u64; 16],
    pub levels: [u64; 16],
    pub k: usize,
}

// Rates of inflation in one of three shapes: a flat rate; a rate that moves halfway each year toward a long-run rate; a shock rate in a named year, the first being
// year 1, with another rate in the others.
#[derive(Clone, Copy)]
pub enum Inflation {
    Flat(f64),
    Fading(f64, f64),
    Shock(f64, f64, u64),
}

// What is handed from year to year: the current rate, and the value of the path before that year.
#[derive(Clone, Copy)]
pub struct Path {
    pub rate: f64,
    pub value: f64,
}

// The number of the first question that says no, or 0, and sixteen indices in millionths.
#[repr(C)]
#[derive(Clone, Copy)]
pub struct Indices {
    pub refused: u64,
    pub values: [u64; 16],
}
