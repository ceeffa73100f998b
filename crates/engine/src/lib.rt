// The engine: from a valuation year and a record to the result list, under questions 1 to 19. It asks every question before it writes.
#![tactic(auto)]

ghost use Rattle.std.specs.Prelude.{◌≡◌, ◌++◌, ◌≤◌, length};
ghost use Rattle.rules.specs.Questions.{first_no};
ghost use Rattle.rules.specs.Record.{last_year_of, figures_of};
ghost use Rattle.rules.specs.Reading.{opening_questions, field_questions};
ghost use Rattle.rules.specs.Results.{result_count};
ghost use Rattle.rules.specs.Engine.{figure_questions, holds_list, run_answer, run_into};
ghost use Rattle.rules.specs.Demand.{ThirdDemand};
ghost use Rattle.reserving.specs.Stages.{Answers};

use figures_run::run_figures;
use listing::entries_of;
use opening::{last_year_of, opens};
use reading::read;
use rules::{ACCEPTED, NO_FIGURES};

// The questions from 4 on of a record that has passed 1, 2 and 3, and the list where all say yes.
#[tactic(auto, using(laws::proofs::Questions::first_answer, laws::proofs::Questions::after_refusal))]
fn run_record(year: u64, packed: &[u8], out: &mut [i64]) -> u64
    requires { (first_no (opening_questions packed.now) ≡ 0) × (result_count (last_year_of packed.now) ≤ length out.old) }
    ensures { Answers (field_questions packed.now ++ figure_questions year (figures_of packed.now)) year (figures_of packed.now) out.old out.new result }
{
    let mut figures = NO_FIGURES;
    let opened = read(
        packed,
        &mut figures.exposures,
        &mut figures.increments,
        &mut figures.indices,
        &mut figures.reporting,
        &mut figures.ulae,
    );
    if opened.answer != ACCEPTED {
        return opened.answer;
    }
    figures.k = last_year_of(packed);
    figures.weight = opened.weight;
    figures.tail = opened.tail;
    run_figures(year, &figures, out)
}

// Question 3.
fn holds_list(s: &[u8], m: usize) -> bool
    requires { 1 ≤ length s.now }
    ensures { result ≡ holds_list s.now m }
{
    entries_of(last_year_of(s)) <= m
}

// Fills the result list of the record in a valuation year and answers 0, or leaves the buffer and answers the number of the first question, in their order, that says no.
// Entries of a longer buffer keep what they held. Of every accepted run the third demand holds.
#[unsafe(no_mangle)]
pub extern "C" fn doonamurk_run(valuation_year: u64, packed: &[u8], results: &mut [i64]) -> u64
    ensures { (result ≡ run_answer valuation_year packed.now (length results.old))
        × ((results.new ≡ run_into valuation_year packed.now results.old)
        × (result ≡ 0 → ThirdDemand (figures_of packed.now) results.new)) }
{
    let answer = opens(packed);
    if answer != ACCEPTED {
        return answer;
    }
    if !holds_list(packed, results.len()) {
        return 3;
    }
    run_record(valuation_year, packed, results)
}
