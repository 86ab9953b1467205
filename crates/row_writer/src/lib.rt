// The writers of one row's line: with its sign, as the rows of a sheet and of its canonical generators have it; and
// without, as w has it and every error and correction.
#![tactic(auto)]

ghost use Rattle.std.specs.Prelude.{◌≡◌, ◌≤◌, ◌<◌, length};
ghost use Rattle.code_record.specs.Record.{most_qubits};
ghost use Rattle.sheet.specs.Text.{laid};
ghost use Rattle.row_writer.specs.Lines.{letters_end, row_line_text, write_row, letters_line_text, write_letters};

use code_record::check_qubits;
use letters_writer::fill_letters;
use pauli::Pauli;
use refusals::Refusal;

// The letters of a row, one for each of n qubits, and the line feed.
fn letters_end(out: &mut [u8], n: usize, row: Pauli)
    requires { n < length out.old }
    ensures { out.new ≡ laid (letters_end n row) out.old }
{
    fill_letters(row, &mut out[..n]);
    out[n] = b'\n';
}

// The line of a row: its key, its sign, its letters.
fn row_line(out: &mut [u8], key: u8, n: usize, row: Pauli) -> usize
    requires n_le_most_qubits { n ≤ most_qubits }
    requires row_in_bounds { length (row_line_text key n row) ≤ length out.old }
    ensures value { result ≡ length (row_line_text key n row) }
    ensures out_after { out.new ≡ laid (row_line_text key n row) out.old }
{
    out[0] = key;
    out[1] = b'=';
    out[2] = row.sign().byte();
    letters_end(&mut out[3..], n, row);
    n + 4
}

// The line of a row without its sign: its key, its letters.
fn letters_line(out: &mut [u8], key: u8, n: usize, row: Pauli) -> usize
    requires n_le_most_qubits { n ≤ most_qubits }
    requires row_in_bounds { length (letters_line_text key n row) ≤ length out.old }
    ensures value { result ≡ length (letters_line_text key n row) }
    ensures out_after { out.new ≡ laid (letters_line_text key n row) out.old }
{
    out[0] = key;
    out[1] = b'=';
    letters_end(&mut out[2..], n, row);
    n + 3
}

// The line of one row by itself, into an output buffer: 15 where n is not 2 to 24, then 17 where the buffer is shorter
// than the line, then the line's bytes and their count. Whatever the row is, its sign is - where it has not that of +,
// and mask bits above qubit n are not shown.
pub fn write_row(key: u8, n: usize, row: Pauli, out: &mut [u8]) -> Result<usize, Refusal>
    ensures value { result ≡ (write_row key n row out.old).answer }
    ensures out_after { out.new ≡ (write_row key n row out.old).buffer }
{
    check_qubits(n)?;
    if out.len() < n + 4 {
        return Err(Refusal::ShortBuffer);
    }
    Ok(row_line(out, key, n, row))
}

// The line of one row's letters by themselves, with no sign, into an output buffer: it refuses as `write_row` does, for
// a line that is a byte shorter.
pub fn write_letters(key: u8, n: usize, row: Pauli, out: &mut [u8]) -> Result<usize, Refusal>
    ensures value { result ≡ (write_letters key n row out.old).answer }
    ensures out_after { out.new ≡ (write_letters key n row out.old).buffer }
{
    check_qubits(n)?;
    if out.len() < n + 3 {
        return Err(Refusal::ShortBuffer);
    }
    Ok(letters_line(out, key, n, row))
}
