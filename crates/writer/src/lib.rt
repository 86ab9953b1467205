// The writer of a sheet. Each part of it has a call of its own, which is lent the output from the part's first byte
// onward and answers how many bytes the part has.
#![tactic(auto)]

ghost use Rattle.std.specs.Prelude.{true, ◌≡◌, ◌≤◌, length};
ghost use Rattle.code_record.specs.Record.{within_limits};
ghost use Rattle.sheet.specs.Text.{laid};
ghost use Rattle.sheet.specs.Writer.{sheet_text, write_sheet};

use code_record::Code;
use refusals::{Refusal, bytes_written};

// The lines of a sheet, of a record within limits.
fn sheet_lines(out: &mut [u8], code: Code) -> usize
    requires code_value { within_limits code ≡ true }
    requires code_in_bounds { length (sheet_text code) ≤ length out.old }
    ensures value { result ≡ length (sheet_text code) }
    ensures out_after { out.new ≡ laid (sheet_text code) out.old }
{
    let mut end = bytes_written(numbers_writer::write_numbers(b"n=", code.n, b"d=", code.d, out));
    end += bytes_written(families_writer::write_families(code, &mut out[end..]));
    end += bytes_written(row_writer::write_letters(b'w', code.n, code.w, &mut out[end..]));
    end
}

// How many bytes the sheet has, of a record within limits: three more than its digits in the lines of n and d, n + 4 in
// each row's, n + 3 in the w line.
fn sheet_length(code: Code) -> usize
    requires { within_limits code ≡ true }
    ensures { result ≡ length (sheet_text code) }
{
    let n = code.n;
    let r = code.r;
    let rows = r + 2 * code_record::pair_count(n, r);
    number_writer::digit_count(n)
        + number_writer::digit_count(code.d)
        + 6
        + rows * (n + 4)
        + (n + 3)
}

// The sheet of a record, into an output buffer: 15 where the record is outside its limits, then 17 where the buffer is
// shorter than the sheet, then the sheet's bytes and their count. The bytes behind them stay, and a refusal leaves the
// whole buffer.
pub fn write_sheet(code: Code, out: &mut [u8]) -> Result<usize, Refusal>
    ensures value { result ≡ (write_sheet code out.old).answer }
    ensures out_after { out.new ≡ (write_sheet code out.old).buffer }
{
    if !record_limits::within_limits(code) {
        return Err(Refusal::RecordLimits);
    }
    if out.len() < sheet_length(code) {
        return Err(Refusal::ShortBuffer);
    }
    Ok(sheet_lines(out, code))
}
