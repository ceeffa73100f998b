// The report's figures of a record and a result list of it.
#![tactic(auto)]

ghost use Rattle.std.specs.Prelude.{◌≡◌, pos, replicate};
ghost use Rattle.rules.specs.Questions.{first_no};
ghost use Rattle.rules.specs.Record.{last_year_of, figures_of};
ghost use Rattle.rules.specs.Reading.{opening_questions, field_questions};
ghost use Rattle.vectors.specs.Vectors.{most_figures};
ghost use Rattle.record_figures.specs.RecordFigures.{record_figures, Listed};

use opening::last_year_of;
use page_figures::fill_figures;
use reading::{Opened, read};
use rules::MOST_ENTRIES;
use vectors::MOST_FIGURES;

// Fills the figures of a record that has passed questions 1, 2, 4 and 5; answers its weight and the amount still to be paid.
pub fn fill_record_figures(
    packed: &[u8],
    list: &[i64; MOST_ENTRIES],
    figures: &mut [i64; MOST_FIGURES],
) -> Opened
    requires { (first_no (opening_questions packed.now) ≡ 0)
        × ((first_no (field_questions packed.now) ≡ 0) × (Listed (last_year_of packed.now) list.now × (figures.old ≡ replicate most_figures (pos 0)))) }
    ensures { (result.weight ≡ (figures_of packed.now).weight)
        × ((result.tail ≡ (figures_of packed.now).tail) × (figures.new ≡ record_figures list.now packed.now)) }
{
    let mut exposures = [0u64; 16];
    let mut increments = [0i64; 136];
    let mut indices = [0u64; 16];
    let mut reporting = [0u64; 16];
    let mut ulae = [0u64; 16];
    let opened = read(
        packed,
        &mut exposures,
        &mut increments,
        &mut indices,
        &mut reporting,
        &mut ulae,
    );
    fill_figures(
        figures,
        list,
        &exposures,
        &increments,
        &indices,
        &reporting,
        &ulae,
        last_year_of(packed),
    );
    opened
}
