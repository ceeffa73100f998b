// The reader: a record's fields in their order in a lent list, or the number of the first question that says no.
#![tactic(auto)]

ghost use Rattle.std.specs.Prelude.{◌≡◌, ◌+◌, ◌*◌, ◌<◌, ◌≤◌, ◌^◌, length};
ghost use Rattle.std.proofs.lemmas.List.Edits.{sets};
ghost use Rattle.rules.specs.Record.{last_year_of, field_count, fields_of, cells};
ghost use Rattle.rules.specs.Questions.{first_no, after_call};
ghost use Rattle.rules.specs.Reading.{has_room, opening_questions, field_questions, read_answer_of, read_into};
ghost use Rattle.reader.specs.Fields.{Signable, triangle_fields, assumption_fields};

use entries::{put_integers, put_natural, put_naturals};
use layout::{cells_of, fields_of};
use opening::{last_year_of, opens};
use reading::read;
use rules::ACCEPTED;

// Question 3, for a list of m entries that is to hold the fields.
fn has_room(s: &[u8], m: usize) -> bool
    requires { 1 ≤ length s.now }
    ensures { result ≡ has_room s.now m }
{
    fields_of(last_year_of(s)) <= m
}

// k, the exposures and the increments go into the list; the place after them.
fn put_triangle(k: usize, exposures: &[u64; 16], increments: &[i64; 136], list: &mut [i64]) -> usize
    requires { (k < 16) × (Signable exposures.now × (k + 2 + cells k ≤ length list.old)) }
    ensures { (result ≡ k + 2 + cells k)
        × (list.new ≡ sets list.old 0 (triangle_fields k exposures.now increments.now)) }
{
    let a = put_natural(list, 0, k as u64);
    let b = put_naturals(list, a, exposures, k + 1);
    put_integers(list, b, increments, cells_of(k))
}

// The indices, the reporting shares, the weight, the ULAE totals and the amount still to be paid go into the list from place `at` on.
fn put_assumptions(
    k: usize,
    indices: &[u64; 16],
    reporting: &[u64; 16],
    weight: u64,
    ulae: &[u64; 16],
    tail: u64,
    list: &mut [i64],
    at: usize,
)
    requires { (k < 16) × (Signable indices.now × (Signable reporting.now × ((weight < 2 ^ 63) × (Signable ulae.now × ((tail < 2 ^ 63) × (at + 3 * k + 5 ≤ length list.old)))))) }
    ensures { list.new ≡ sets list.old at (assumption_fields k indices.now reporting.now weight ulae.now tail) }
{
    let n = k + 1;
    let a = put_naturals(list, at, indices, n);
    let b = put_naturals(list, a, reporting, n);
    let c = put_natural(list, b, weight);
    let d = put_naturals(list, c, ulae, n);
    put_natural(list, d, tail);
}

// Questions 4 and 5 of a record that has passed 1, 2 and 3, and its fields in their order where both say yes.
#[tactic(auto, using(laws::proofs::Questions::after_refusal))]
fn read_into(packed: &[u8], list: &mut [i64]) -> u64
    requires { (first_no (opening_questions packed.now) ≡ 0) × (field_count (last_year_of packed.now) ≤ length list.old) }
    ensures { (result ≡ first_no (field_questions packed.now))
        × (list.new ≡ after_call (first_no (field_questions packed.now)) (sets list.old 0 (fields_of packed.now)) list.old) }
{
    let mut exposures = [0u64; 16];
    let mut increments = [0i64; 136];
    let mut indices = [0u64; 16];
    let mut reporting = [0u64; 16];
    let mut ulae = [0u64; 16];
    let opened = read(
        packed,
        &mut exposures,
        &mut increments,
        &mut indices,
        &mut reporting,
        &mut ulae,
    );
    if opened.answer != ACCEPTED {
        return opened.answer;
    }
    let k = last_year_of(packed);
    let at = put_triangle(k, &exposures, &increments, list);
    put_assumptions(
        k,
        &indices,
        &reporting,
        opened.weight,
        &ulae,
        opened.tail,
        list,
        at,
    );
    ACCEPTED
}

// Fills the list with the fields of the record in their order and answers 0, or leaves it and answers the number of the first of
// questions 1, 2, 3, 4 and 5 that says no. Entries of a longer list keep what they held.
#[unsafe(no_mangle)]
pub extern "C" fn doonamurk_read(packed: &[u8], list: &mut [i64]) -> u64
    ensures { (result ≡ read_answer_of packed.now (length list.old)) × (list.new ≡ read_into packed.now list.old) }
{
    let answer = opens(packed);
    if answer != ACCEPTED {
        return answer;
    }
    if !has_room(packed, list.len()) {
        return 3;
    }
    read_into(packed, list)
}
