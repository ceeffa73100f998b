// Hindsight run for trial indices: forecasts of diagonals that are known, by the fits of what was known before them. It asks every question before it writes.
#![tactic(auto)]

ghost use Rattle.std.specs.Prelude.{◌≡◌, true, [], ◌∷◌, ◌++◌, ◌≤◌, length};
ghost use Rattle.rules.specs.Questions.{first_no};
ghost use Rattle.rules.specs.Record.{last_year_of, figures_of};
ghost use Rattle.rules.specs.Reading.{opening_questions, field_questions};
ghost use Rattle.rules.specs.Triangle.{cumulatives_pass};
ghost use Rattle.rules.specs.Hindsight.{settings_pass, hindsight_count, hindsight_answer, hindsight_into};
ghost use Rattle.answering.specs.Answers.{AnswersWith};
ghost use Rattle.hindsight_gaps.specs.Fitted.{Given};
ghost use Rattle.hindsight.specs.Stages.{filled_by, filled_of};

use hindsight_list::fill_report;
use hindsight_questions::{holds_report, settings_pass};
use opening::{last_year_of, opens};
use reading::read;
use rules::ACCEPTED;
use triangle_rows::fill_rows;

// Question 6 of figures that have passed 4 and 5, and the report where it says yes.
fn run_figures(
    k: usize,
    exposures: &[u64; 16],
    increments: &[i64; 136],
    settings: &[u64],
    report: &mut [i64],
) -> u64
    requires { Given k exposures.now increments.now
        × ((settings_pass k settings.now ≡ true) × (hindsight_count k (length settings.now) ≤ length report.old)) }
    ensures { AnswersWith ((6, cumulatives_pass k increments.now) ∷ [])
        (filled_by k exposures.now increments.now settings.now report.old) report.old report.new result }
{
    let mut averages = [[0i64; 16]; 16];
    let mut sums = [0u64; 16];
    let mut paid = [0u64; 16];
    let mut columns = [0i64; 16];
    let mut diagonals = [0i64; 16];
    if !fill_rows(
        k,
        exposures,
        increments,
        &mut averages,
        &mut sums,
        &mut paid,
        &mut columns,
        &mut diagonals,
    ) {
        return 6;
    }
    fill_report(
        k,
        exposures,
        increments,
        &averages,
        &mut columns,
        &mut diagonals,
        settings,
        report,
    );
    ACCEPTED
}

// The questions from 4 on of a record that has passed 1, 2, 29 and 3, and the report where all say yes.
fn run_record(packed: &[u8], settings: &[u64], report: &mut [i64]) -> u64
    requires { (first_no (opening_questions packed.now) ≡ 0)
        × ((settings_pass (last_year_of packed.now) settings.now ≡ true) × (hindsight_count (last_year_of packed.now) (length settings.now) ≤ length report.old)) }
    ensures { AnswersWith (field_questions packed.now ++ ((6, cumulatives_pass (last_year_of packed.now) (figures_of packed.now).increments) ∷ []))
        (filled_of packed.now settings.now report.old) report.old report.new result }
{
    let mut exposures = [0u64; 16];
    let mut increments = [0i64; 136];
    let mut indices = [0u64; 16];
    let mut reporting = [0u64; 16];
    let mut ulae = [0u64; 16];
    let opened = read(
        packed,
        &mut exposures,
        &mut increments,
        &mut indices,
        &mut reporting,
        &mut ulae,
    );
    if opened.answer != ACCEPTED {
        return opened.answer;
    }
    run_figures(
        last_year_of(packed),
        &exposures,
        &increments,
        settings,
        report,
    )
}

// Fills the report of the record's hindsight run with these settings and answers 0, or leaves the lent report unchanged and answers the number of the first question, in their order, that
// says no: 1, 2, 29, 3, 4, 5, 6. Entries of a longer report keep what they held.
#[unsafe(no_mangle)]
pub extern "C" fn doonamurk_hindsight(packed: &[u8], settings: &[u64], report: &mut [i64]) -> u64
    ensures { (result ≡ hindsight_answer packed.now settings.now (length report.old))
        × (report.new ≡ hindsight_into packed.now settings.now report.old) }
{
    let answer = opens(packed);
    if answer != ACCEPTED {
        return answer;
    }
    let k = last_year_of(packed);
    if !settings_pass(k, settings) {
        return 29;
    }
    if !holds_report(k, settings.len(), report.len()) {
        return 3;
    }
    run_record(packed, settings, report)
}
