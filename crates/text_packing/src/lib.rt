// Figures typed as text, packed into a record; a line of inflation is asked before the other lines.
#![tactic(auto)]

ghost use Rattle.std.specs.Prelude.{◌≡◌, is_ok};
ghost use Rattle.composing.specs.Text.{Put};
ghost use Rattle.sheet.specs.Sheet.{packed_into};
ghost use Rattle.history_wording.specs.Refused.{message_bytes};
ghost use Rattle.sheet_packing.specs.Said.{size_in};
ghost use Rattle.text_packing.specs.Packed.{packed_said, is_packed, packed_size};

use inflation_asking::fault_asked;
use inflation_wording::put_fault;
use rules::MOST_BYTES;
use sheet_packing::pack_sheet;
use sheet_reading::without_mark;

// Packs the figures of a text into the record, or says in the message what is wrong with them; how many bytes of the one or of the other there are.
pub fn pack_text(
    text: &[u8],
    packed: &mut [u8; MOST_BYTES],
    message: &mut [u8],
) -> Result<usize, usize>
    ensures { (is_ok result ≡ is_packed text.now)
        × ((packed.new ≡ packed_into text.now packed.old)
        × ((size_in result ≡ packed_size text.now)
        × Put message.old message.new 0 (message_bytes result) (packed_said text.now))) }
{
    let rest = without_mark(text);
    let fault = fault_asked(rest);
    if fault.kind != 0 {
        return Err(put_fault(message, 0, rest, fault));
    }
    pack_sheet(text, packed, message)
}
