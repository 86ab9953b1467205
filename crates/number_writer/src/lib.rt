// The writer of a number: how many digits it has, and its line with any key.
#![tactic(auto)]

ghost use Rattle.std.specs.Prelude.{◌≡◌, ◌≤◌, length};
ghost use Rattle.sheet.specs.Text.{laid, decimal};
ghost use Rattle.number_writer.specs.Lines.{number_text, write_number};

use refusals::{Refusal, bytes_written};

// How many digits a number has.
pub fn digit_count(m: usize) -> usize
    ensures { result ≡ length (decimal m) }
{
    if m < 10 {
        return 1;
    }
    digit_count(m / 10) + 1
}

// The digits of a number, those of its tenth first.
fn digits(out: &mut [u8], m: usize) -> usize
    requires { length (decimal m) ≤ length out.old }
    ensures value { result ≡ length (decimal m) }
    ensures out_after { out.new ≡ laid (decimal m) out.old }
{
    if m < 10 {
        out[0] = b'0' + m as u8;
        return 1;
    }
    let end = digits(out, m / 10);
    out[end] = b'0' + (m % 10) as u8;
    end + 1
}

// The line of a number: its key, its digits.
fn number_line(out: &mut [u8], key: &[u8], m: usize) -> usize
    requires { length (number_text key.now m) ≤ length out.old }
    ensures value { result ≡ length (number_text key.now m) }
    ensures out_after { out.new ≡ laid (number_text key.now m) out.old }
{
    let mut end = bytes_written(text_writer::write_text(key, out));
    end += digits(&mut out[end..], m);
    out[end] = b'\n';
    end + 1
}

// The line of one number by itself, into an output buffer: 17 where the buffer is shorter than the line, then the
// line's bytes and their count. The key is all that stands before the digits.
pub fn write_number(key: &[u8], m: usize, out: &mut [u8]) -> Result<usize, Refusal>
    ensures value { result ≡ (write_number key.now m out.old).answer }
    ensures out_after { out.new ≡ (write_number key.now m out.old).buffer }
{
    if out.len().saturating_sub(key.len()) < digit_count(m) + 1 {
        return Err(Refusal::ShortBuffer);
    }
    Ok(number_line(out, key, m))
}
