// The whole reading of a sheet that stands by itself: its lines, and then its checks.
#![tactic(auto)]

ghost use Rattle.std.specs.Prelude.{true, ◌≡◌};
ghost use Rattle.code_record.specs.Record.{within_limits, limits_fault};
ghost use Rattle.refusals.specs.Refusals.{◌then◌};
ghost use Rattle.admission.specs.Admission.{code_fault, refused_reading, reading_of, read_sheet};

use admission::Reading;
use code_checks::check_read;
use code_record::Code;
use reader::read_lines;
use refusals::Refusal;
use sheet_end::behind;

// Beside a refusal stands the empty record.
fn refused(refusal: Refusal) -> Reading
    ensures { result ≡ refused_reading refusal }
{
    Reading {
        answer: Err(refusal),
        code: Code::empty(),
    }
}

// What the checks make of a record that was read, whose w stands on the line `at`.
fn judged(code: Code, at: usize) -> Reading
    requires { within_limits code ≡ true }
    ensures { result ≡ reading_of code (limits_fault code then code_fault at code) }
{
    match check_read(code, at) {
        Ok(()) => Reading {
            answer: Ok(()),
            code,
        },
        Err(refusal) => refused(refusal),
    }
}

// A sheet is admitted, with its code, or refused for its first fault: of its lines, then bytes behind them, then of the
// checks. The record stays where the lines were read into.
pub fn read_sheet(s: &[u8]) -> Reading
    ensures { result ≡ read_sheet s.now }
{
    let reading = read_lines(s);
    let lines = reading.answer;
    if let Err(refusal) = lines {
        return refused(refusal);
    }
    if 0 < behind(s, lines).len() {
        return refused(Refusal::Form(reading.claim_at + 1));
    }
    judged(reading.code, reading.claim_at)
}
