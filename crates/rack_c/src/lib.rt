// The calls of `rack`, as functions of C, which include/reinoften.h declares.
#![tactic(auto)]

ghost use Rattle.std.specs.Prelude.{◌≡◌};
ghost use Rattle.rack.specs.Calls.{read_call, sheet_call, canonical_call, syndrome_call, decode_call, correct_call};
ghost use Rattle.rack.specs.Calls.{report_call};

use code_record::Code;
use pauli::Pauli;
use rack_answers::{Answer, CorrectionAnswer, SheetAnswer};

// A sheet is admitted, with its record, or refused for its first fault.
#[unsafe(no_mangle)]
pub extern "C" fn reinoften_read_sheet(sheet: &[u8]) -> SheetAnswer
    ensures { result ≡ read_call sheet.now }
{
    rack::reinoften_read_sheet(sheet)
}

// The sheet of a record.
#[unsafe(no_mangle)]
pub extern "C" fn reinoften_write_sheet(code: Code, out: &mut [u8]) -> Answer
    ensures value { result ≡ (sheet_call code out.old).answer }
    ensures out_after { out.new ≡ (sheet_call code out.old).buffer }
{
    rack::reinoften_write_sheet(code, out)
}

// The canonical generators of a record, a line for each.
#[unsafe(no_mangle)]
pub extern "C" fn reinoften_canonical(code: Code, out: &mut [u8]) -> Answer
    ensures value { result ≡ (canonical_call code out.old).answer }
    ensures out_after { out.new ≡ (canonical_call code out.old).buffer }
{
    rack::reinoften_canonical(code, out)
}

// The syndrome of a Pauli, a character for each generator.
#[unsafe(no_mangle)]
pub extern "C" fn reinoften_syndrome(code: Code, error: Pauli, out: &mut [u8]) -> Answer
    ensures value { result ≡ (syndrome_call code error out.old).answer }
    ensures out_after { out.new ≡ (syndrome_call code error out.old).buffer }
{
    rack::reinoften_syndrome(code, error, out)
}

// The correction for a syndrome that is given as characters, as letters.
#[unsafe(no_mangle)]
pub extern "C" fn reinoften_decode(code: Code, syndrome: &[u8], out: &mut [u8]) -> Answer
    ensures value { result ≡ (decode_call code syndrome.now out.old).answer }
    ensures out_after { out.new ≡ (decode_call code syndrome.now out.old).buffer }
{
    rack::reinoften_decode(code, syndrome, out)
}

// The correction for a syndrome that is given as a mask, by value.
#[unsafe(no_mangle)]
pub extern "C" fn reinoften_correct(code: Code, syndrome: u32) -> CorrectionAnswer
    ensures { result ≡ correct_call code syndrome }
{
    rack::reinoften_correct(code, syndrome)
}

// The report of a sheet and the syndromes behind it.
#[unsafe(no_mangle)]
pub extern "C" fn reinoften_report(input: &[u8], out: &mut [u8]) -> Answer
    ensures value { result ≡ (report_call input.now out.old).answer }
    ensures out_after { out.new ≡ (report_call input.now out.old).buffer }
{
    rack::reinoften_report(input, out)
}
