// Figures typed as text, packed into a record, or in words what is wrong with them.
#![tactic(auto)]

ghost use Rattle.std.specs.Prelude.{◌≡◌, is_ok};
ghost use Rattle.composing.specs.Text.{Put};
ghost use Rattle.sheet.specs.Sheet.{read_sheet, pack_into};
ghost use Rattle.history_wording.specs.Refused.{message_bytes};
ghost use Rattle.sheet_packing.specs.Said.{said_of, has_record, size_of, size_in};

use history_wording::put_wrong;
use layout::bytes_of;
use line_reading::last_year;
use rules::{MOST_BYTES, MOST_FIELDS};
use sheet_fields::write_fields;
use sheet_reading::read_sheet;
use wording::put_refusal;

// Packs the figures of a text into the record, or says in the message what is wrong with them; how many bytes of the one or of the other there are.
pub fn pack_sheet(
    text: &[u8],
    packed: &mut [u8; MOST_BYTES],
    message: &mut [u8],
) -> Result<usize, usize>
    ensures { (is_ok result ≡ has_record (read_sheet text.now))
        × ((packed.new ≡ pack_into (read_sheet text.now) packed.old)
        × ((size_in result ≡ size_of (read_sheet text.now))
        × Put message.old message.new 0 (message_bytes result) (said_of (read_sheet text.now)))) }
{
    let mut list = [0i64; MOST_FIELDS];
    let mut word = [0u8; 20];
    let f = read_sheet(text, &mut list, &mut word);
    if f.problem != 0 {
        return Err(put_wrong(message, false, f, &list, &word));
    }
    let k = last_year(&list, f.count) as usize;
    let answer = write_fields(&list, k, packed);
    if answer != 0 {
        return Err(put_refusal(message, 0, answer));
    }
    Ok(bytes_of(k))
}
