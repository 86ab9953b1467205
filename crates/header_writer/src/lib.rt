// The writer of the lines of n, k, d and t, with which a report's account of a code begins.
#![tactic(auto)]

ghost use Rattle.std.specs.Prelude.{◌≡◌, ◌≤◌, length};
ghost use Rattle.sheet.specs.Text.{laid};
ghost use Rattle.header_writer.specs.Header.{header_text, write_header};

use number_writer::digit_count;
use numbers_writer::write_numbers;
use refusals::{Refusal, bytes_written};

// The lines of the four numbers, where there is room for them.
fn header_lines(out: &mut [u8], n: usize, k: usize, d: usize, t: usize) -> usize
    requires { length (header_text n k d t) ≤ length out.old }
    ensures value { result ≡ length (header_text n k d t) }
    ensures out_after { out.new ≡ laid (header_text n k d t) out.old }
{
    let mut end = bytes_written(write_numbers(b"n=", n, b"k=", k, out));
    end += bytes_written(write_numbers(b"d=", d, b"t=", t, &mut out[end..]));
    end
}

// How many bytes these lines have: three beside its digits in each.
pub fn header_length(n: usize, k: usize, d: usize, t: usize) -> usize
    ensures { result ≡ length (header_text n k d t) }
{
    digit_count(n) + digit_count(k) + digit_count(d) + digit_count(t) + 12
}

// The lines of n, k, d and t, into an output buffer: 17 where the buffer is shorter than the lines, then the lines'
// bytes and their count.
pub fn write_header(
    n: usize,
    k: usize,
    d: usize,
    t: usize,
    out: &mut [u8],
) -> Result<usize, Refusal>
    ensures value { result ≡ (write_header n k d t out.old).answer }
    ensures out_after { out.new ≡ (write_header n k d t out.old).buffer }
{
    if out.len() < header_length(n, k, d, t) {
        return Err(Refusal::ShortBuffer);
    }
    Ok(header_lines(out, n, k, d, t))
}
