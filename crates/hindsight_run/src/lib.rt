// From a line of settings and a record to the report of the hindsight run, or in words what is wrong with the settings or the refusal.
#![tactic(auto)]

ghost use Rattle.std.specs.Prelude.{◌≡◌, ◌≤◌, length, get_or, is_ok, IfOk, IfErr};
ghost use Rattle.std.proofs.lemmas.List.Edits.{sets};
ghost use Rattle.rules.specs.Lists.{up_to};
ghost use Rattle.rules.specs.Hindsight.{most_settings};
ghost use Rattle.composing.specs.Text.{Put};
ghost use Rattle.settings_line.specs.Settings.{most_line};
ghost use Rattle.hindsight_run.specs.Listed.{has_report, report_of, refused_text, wrong_text, said_of, Found};

use composing::{put_bytes, put_decimal};
use hindsight::doonamurk_hindsight;
use opening::last_year_of;
use rules::{MOST_HINDSIGHT, MOST_SETTINGS};
use settings_line::{MOST_WORDS, put_settings, wrong_word};
use wording::put_refusal;

// Of a report its k, how many settings there are, and the settings, zero past them.
#[derive(Clone, Copy)]
pub struct Listed {
    pub k: usize,
    pub count: usize,
    pub settings: [u64; MOST_SETTINGS],
}

// What is wrong with the settings, by the place of a word.
fn put_wrong(out: &mut [u8], n: usize) -> usize
    ensures { Put out.old out.new 0 result (wrong_text n) }
{
    let number = put_bytes(out, 0, b"settings: word ");
    let end = put_decimal(out, number, n as u64);
    put_bytes(
        out,
        end,
        b" is no whole number of millionths (1000000 is an index of 1)\n",
    )
}

// The line of a refusal; question 29 is asked of hindsight runs alone.
fn put_refused(out: &mut [u8], n: u64) -> usize
    ensures { Put out.old out.new 0 result (refused_text n) }
{
    if n == 29 {
        put_bytes(
            out,
            0,
            b"refused 29: there are no settings or more than 8, one is not from 1 to 5,000,000, or k is 1\n",
        )
    } else {
        put_refusal(out, 0, n)
    }
}

// The first eight settings.
fn first_settings(all: &[u64; MOST_WORDS]) -> [u64; MOST_SETTINGS]
    ensures { result ≡ up_to (λ j. get_or all.now j 0) most_settings }
{
    let mut settings = [0; MOST_SETTINGS];
    settings.copy_from_slice(&all[..MOST_SETTINGS]);
    settings
}

// Fills the list with the report of a record and the settings of a line from its start on, or says in the message why there is none; the error is how many bytes of the
// message there are.
pub fn list_hindsight(
    line: &[u8],
    packed: &[u8],
    list: &mut [i64; MOST_HINDSIGHT],
    message: &mut [u8],
) -> Result<Listed, usize>
    requires { length line.now ≤ most_line }
    ensures listed_value { (is_ok result ≡ has_report line.now packed.now)
        × (IfOk result (λ found. Found line.now packed.now found
        × (list.new ≡ sets list.old 0 (report_of line.now packed.now)))
        × IfErr result (λ said. Put message.old message.new 0 said (said_of line.now packed.now))) }
    ensures said_value { IfOk result (λ found. message.new ≡ message.old) × IfErr result (λ said. list.new ≡ list.old) }
{
    let wrong = wrong_word(line);
    if wrong != 0 {
        return Err(put_wrong(message, wrong));
    }
    let mut all = [0u64; MOST_WORDS];
    let count = put_settings(line, &mut all);
    let answer = doonamurk_hindsight(packed, &all[..count], list);
    if answer != 0 {
        return Err(put_refused(message, answer));
    }
    Ok(Listed {
        k: last_year_of(packed),
        count,
        settings: first_settings(&all),
    })
}
