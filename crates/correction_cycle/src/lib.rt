// A cycle of error correction, from a sheet's bytes to the letters of a correction: the reading, the syndrome call and
// the decode call, one after the other. What the third guarantee says of errors stands in its contract.
#![tactic(auto)]

ghost use Rattle.std.specs.Prelude.{◌≡◌};
ghost use Rattle.decoder.specs.EndToEnd.{cycle, Guaranteed};
ghost use Rattle.correction_cycle.specs.Zeros.{zeros};

use code_record::ROW_ROOM;
use decoder::Decoded;
use decoding::decode;
use pauli::Pauli;
use refusals::Refusal;
use rows_writer::rows_there;
use sheet_reading::read_sheet;
use syndrome_writer::write_syndrome;

// What the decode call answers of the syndrome that an error has under a sheet. A refused sheet has the empty record,
// which both calls refuse with 15, so the syndrome call's answer is passed over.
pub fn correct_error(sheet: &[u8], error: Pauli, letters: &mut [u8]) -> Result<Decoded, Refusal>
    ensures value { result ≡ (cycle sheet.now error zeros letters.old).decoded.answer }
    ensures letters_after { letters.new ≡ (cycle sheet.now error zeros letters.old).decoded.buffer }
    ensures guaranteed { Guaranteed sheet.now error letters.old
        (record { answer = result; buffer = letters.new }) }
{
    let code = read_sheet(sheet).code;
    let mut characters = [b'0'; ROW_ROOM];
    let _ = write_syndrome(code, error, &mut characters);
    let r = rows_there(code.r);
    decode(code, &characters[..r], letters)
}
