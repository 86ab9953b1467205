// What stands behind the lines of a sheet: nothing where it is read by itself, or the part that a report reads next.
#![tactic(auto)]

ghost use Rattle.std.specs.Prelude.{◌≡◌};
ghost use Rattle.sheet.specs.Reader.{form_reading, behind};

use code_record::LinesReading;
use refusals::Refusal;

// A sheet by itself, with nothing behind w.
pub fn read_form(s: &[u8]) -> LinesReading
    ensures { result ≡ form_reading s.now }
{
    let reading = reader::read_lines(s);
    let Ok(used) = reading.answer else {
        return reading;
    };
    if used < s.len() {
        return LinesReading::off_form(reading.claim_at + 1);
    }
    reading
}

// The part of s that is behind the lines; no bytes where they were refused.
pub fn behind(s: &[u8], answer: Result<usize, Refusal>) -> &[u8]
    ensures { result.now ≡ behind s.now answer }
{
    let end = s.len();
    let Ok(used) = answer else {
        return &s[end..];
    };
    &s[used.min(end)..]
}
