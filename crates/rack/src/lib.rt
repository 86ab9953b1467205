// The calls for programs in C and Rust: each makes the call of the same work, and answers in numbers. `rack_c` exports
// them, and include/reinoften.h declares them.
#![tactic(auto)]

ghost use Rattle.std.specs.Prelude.{◌≡◌};
ghost use Rattle.rack.specs.Calls.{read_call, sheet_call, canonical_call, syndrome_call, decode_call, correct_call};
ghost use Rattle.rack.specs.Calls.{report_call};

use code_record::Code;
use pauli::Pauli;
use rack_answers::{Answer, CorrectionAnswer, SheetAnswer};

// A sheet is admitted, with its record, or refused for its first fault.
pub fn reinoften_read_sheet(sheet: &[u8]) -> SheetAnswer
    ensures { result ≡ read_call sheet.now }
{
    SheetAnswer::from(sheet_reading::read_sheet(sheet))
}

// The sheet of a record.
pub fn reinoften_write_sheet(code: Code, out: &mut [u8]) -> Answer
    ensures value { result ≡ (sheet_call code out.old).answer }
    ensures out_after { out.new ≡ (sheet_call code out.old).buffer }
{
    Answer::from(writer::write_sheet(code, out))
}

// The canonical generators of a record, a line for each.
pub fn reinoften_canonical(code: Code, out: &mut [u8]) -> Answer
    ensures value { result ≡ (canonical_call code out.old).answer }
    ensures out_after { out.new ≡ (canonical_call code out.old).buffer }
{
    Answer::from(canonical::write_canonical(code, out))
}

// The syndrome of a Pauli, a character for each generator.
pub fn reinoften_syndrome(code: Code, error: Pauli, out: &mut [u8]) -> Answer
    ensures value { result ≡ (syndrome_call code error out.old).answer }
    ensures out_after { out.new ≡ (syndrome_call code error out.old).buffer }
{
    Answer::from(syndrome_writer::write_characters(code, error, out))
}

// The correction for a syndrome that is given as characters, as letters.
pub fn reinoften_decode(code: Code, syndrome: &[u8], out: &mut [u8]) -> Answer
    ensures value { result ≡ (decode_call code syndrome.now out.old).answer }
    ensures out_after { out.new ≡ (decode_call code syndrome.now out.old).buffer }
{
    Answer::from(decoding::decode_letters(code, syndrome, out))
}

// The correction for a syndrome that is given as a mask, by value.
pub fn reinoften_correct(code: Code, syndrome: u32) -> CorrectionAnswer
    ensures { result ≡ correct_call code syndrome }
{
    CorrectionAnswer::from(mask_decoding::decode_mask(code, syndrome))
}

// The report of a sheet and the syndromes behind it.
pub fn reinoften_report(input: &[u8], out: &mut [u8]) -> Answer
    ensures value { result ≡ (report_call input.now out.old).answer }
    ensures out_after { out.new ≡ (report_call input.now out.old).buffer }
{
    Answer::from(report_writer::write_report(input, out))
}
