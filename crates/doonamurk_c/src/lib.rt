// The calls of other languages (bindings/c/doonamurk.h), one static library: each hands on to the function of the same name of its library, and promises what that promises.
// A library of the language exports nothing, so what C calls stands here.
#![tactic(auto)]

ghost use Rattle.std.specs.Prelude.{◌≡◌, length};
ghost use Rattle.rules.specs.Record.{figures, figures_of};
ghost use Rattle.rules.specs.Reading.{read_answer_of, read_into};
ghost use Rattle.rules.specs.Writing.{write_answer, write_into};
ghost use Rattle.rules.specs.Engine.{run_answer, run_into};
ghost use Rattle.rules.specs.Demand.{ThirdDemand};
ghost use Rattle.rules.specs.History.{history_answer, history_into};
ghost use Rattle.rules.specs.Hindsight.{hindsight_answer, hindsight_into};
ghost use Rattle.rules.specs.Inflation.{indices_of};

use rules::{Indices, Inflation};

// From a record to its fields, of `reader`.
#[unsafe(no_mangle)]
pub extern "C" fn doonamurk_read(packed: &[u8], list: &mut [i64]) -> u64
    ensures { (result ≡ read_answer_of packed.now (length list.old)) × (list.new ≡ read_into packed.now list.old) }
{
    reader::doonamurk_read(packed, list)
}

// From the fields to their record, of `writing`.
#[unsafe(no_mangle)]
pub extern "C" fn doonamurk_write(
    k: u64,
    exposures: &[u64],
    increments: &[i64],
    indices: &[u64],
    reporting: &[u64],
    weight: u64,
    ulae: &[u64],
    tail: u64,
    buffer: &mut [u8],
) -> u64
    ensures { (result
        ≡ write_answer
        (figures k exposures.now increments.now indices.now reporting.now weight ulae.now tail)
        (length buffer.old))
        × (buffer.new
        ≡ write_into
        (figures k exposures.now increments.now indices.now reporting.now weight ulae.now tail)
        buffer.old) }
{
    writing::doonamurk_write(
        k, exposures, increments, indices, reporting, weight, ulae, tail, buffer,
    )
}

// From a record to its result list in a valuation year, of `engine`.
#[unsafe(no_mangle)]
pub extern "C" fn doonamurk_run(valuation_year: u64, packed: &[u8], results: &mut [i64]) -> u64
    ensures { (result ≡ run_answer valuation_year packed.now (length results.old))
        × ((results.new ≡ run_into valuation_year packed.now results.old)
        × (result ≡ 0 → ThirdDemand (figures_of packed.now) results.new)) }
{
    engine::doonamurk_run(valuation_year, packed, results)
}

// The shares and levels of each window of a long history, of `history`.
#[unsafe(no_mangle)]
pub extern "C" fn doonamurk_history(
    years: u64,
    width: u64,
    exposures: &[u64],
    cells: &[i64],
    res: &mut [i64],
) -> u64
    ensures { (result ≡ history_answer years width exposures.now cells.now (length res.old))
        × (res.new ≡ history_into years width exposures.now cells.now res.old) }
{
    history::doonamurk_history(years, width, exposures, cells, res)
}

// The hindsight run of a record with trial indices, of `hindsight`.
#[unsafe(no_mangle)]
pub extern "C" fn doonamurk_hindsight(packed: &[u8], settings: &[u64], report: &mut [i64]) -> u64
    ensures { (result ≡ hindsight_answer packed.now settings.now (length report.old))
        × (report.new ≡ hindsight_into packed.now settings.now report.old) }
{
    hindsight::doonamurk_hindsight(packed, settings, report)
}

// The indices of one flat rate, of `inflation`.
#[unsafe(no_mangle)]
pub extern "C" fn doonamurk_flat(rate: f64, years: u64) -> Indices
    ensures { result ≡ indices_of (Inflation.Flat rate) years }
{
    inflation::doonamurk_flat(rate, years)
}

// Those of a rate that moves halfway each year toward a long-run rate.
#[unsafe(no_mangle)]
pub extern "C" fn doonamurk_fading(rate: f64, long_run: f64, years: u64) -> Indices
    ensures { result ≡ indices_of (Inflation.Fading rate long_run) years }
{
    inflation::doonamurk_fading(rate, long_run, years)
}

// Those of a shock rate in a named year, with another rate in the others.
#[unsafe(no_mangle)]
pub extern "C" fn doonamurk_shock(rate: f64, other: f64, year: u64, years: u64) -> Indices
    ensures { result ≡ indices_of (Inflation.Shock rate other year) years }
{
    inflation::doonamurk_shock(rate, other, year, years)
}
