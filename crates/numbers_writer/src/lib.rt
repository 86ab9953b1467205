// The writer of the lines of two numbers, with any keys: those of n and d, with which a sheet begins, and those of a
// report.
#![tactic(auto)]

ghost use Rattle.std.specs.Prelude.{◌≡◌, ◌-◌, ◌≤◌, length};
ghost use Rattle.std.specs.Option.{SomeIff};
ghost use Rattle.sheet.specs.Text.{laid};
ghost use Rattle.number_writer.specs.Lines.{number_text};
ghost use Rattle.numbers_writer.specs.Numbers.{numbers_text, write_numbers};

use number_writer::{digit_count, write_number};
use refusals::{Refusal, bytes_written};

// The lines of two numbers, where there is room for them.
fn number_lines(
    out: &mut [u8],
    first_key: &[u8],
    first: usize,
    second_key: &[u8],
    second: usize,
) -> usize
    requires { length (numbers_text first_key.now first second_key.now second) ≤ length out.old }
    ensures value { result ≡ length (numbers_text first_key.now first second_key.now second) }
    ensures out_after { out.new ≡ laid (numbers_text first_key.now first second_key.now second)
        out.old }
{
    let mut end = bytes_written(write_number(first_key, first, out));
    end += bytes_written(write_number(second_key, second, &mut out[end..]));
    end
}

// The room that is left behind the line of a number, where the line fits. The line's length is not summed up, since a
// key may be of any length.
fn room_behind(key: &[u8], m: usize, room: usize) -> Option<usize>
    ensures { SomeIff result (length (number_text key.now m) ≤ room)
        (room - length (number_text key.now m)) }
{
    room.checked_sub(key.len())?.checked_sub(digit_count(m) + 1)
}

// The lines of two numbers, into an output buffer: 17 where the buffer is shorter than the lines, then the lines' bytes
// and their count. A key is all that stands before the digits.
pub fn write_numbers(
    first_key: &[u8],
    first: usize,
    second_key: &[u8],
    second: usize,
    out: &mut [u8],
) -> Result<usize, Refusal>
    ensures value { result ≡ (write_numbers first_key.now first second_key.now second out.old).answer }
    ensures out_after { out.new
        ≡ (write_numbers first_key.now first second_key.now second out.old).buffer }
{
    let room = room_behind(first_key, first, out.len()).ok_or(Refusal::ShortBuffer)?;
    room_behind(second_key, second, room).ok_or(Refusal::ShortBuffer)?;
    Ok(number_lines(out, first_key, first, second_key, second))
}
