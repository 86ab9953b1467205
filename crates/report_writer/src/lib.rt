// The report's call: the bytes of a sheet and its syndromes, to the bytes of a report.
#![tactic(auto)]

ghost use Rattle.std.specs.Prelude.{◌≡◌, ◌+◌, ◌<◌, ◌^◌, length};
ghost use Rattle.reporting.specs.Report.{write_report};
ghost use Rattle.reporting.specs.Statements.{GuaranteedReport};
ghost use Rattle.report_writer.specs.Reports.{write_checked};

use account_writer::write_account;
use code_checks::check_code;
use code_record::Code;
use reduced_rows::ReducedRows;
use refusal_writer::write_refusal;
use refusals::Refusal;
use syndrome_lines::{OffForm, check_syndromes};

// What a report says of a code that passed its checks, with w on the line `at` and these bytes behind it: 16 at the
// first line that is no syndrome's, or the account of the code, by the canonical generators that the checks gave.
fn report_of_code(
    code: Code,
    reduced: ReducedRows,
    at: usize,
    behind: &[u8],
    out: &mut [u8],
) -> Result<usize, Refusal>
    requires { at + length behind.now + 1 < 2 ^ 64 }
    ensures value { result ≡ (write_checked code reduced at behind.now out.old).answer }
    ensures out_after { out.new ≡ (write_checked code reduced at behind.now out.old).buffer }
{
    match check_syndromes(behind, code.r) {
        Ok(()) => write_account(code, reduced, behind, out),
        Err(OffForm { before }) => write_refusal(Refusal::Syndrome(at + 1 + before), out),
    }
}

// The report of an input, into an output buffer: its refusals 1 to 14 and 16 as text, or the account of its code. 17 is
// the call's own refusal, where the buffer is shorter than the report. The bytes behind the report stay, and 17 leaves
// the whole buffer.
pub fn write_report(input: &[u8], out: &mut [u8]) -> Result<usize, Refusal>
    ensures value { result ≡ (write_report input.now out.old).answer }
    ensures out_after { out.new ≡ (write_report input.now out.old).buffer }
    ensures guaranteed_report { GuaranteedReport input.now out.old
        (record { answer = result; buffer = out.new }) }
{
    let reading = reader::read_lines(input);
    let lines = reading.answer;
    if let Err(refusal) = lines {
        return write_refusal(refusal, out);
    }
    let code = reading.code;
    let checks = check_code(code, reading.claim_at);
    let answer = checks.answer;
    if let Err(refusal) = answer {
        return write_refusal(refusal, out);
    }
    report_of_code(
        code,
        checks.reduced,
        reading.claim_at,
        sheet_end::behind(input, lines),
        out,
    )
}
