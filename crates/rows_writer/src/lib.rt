// The writer of the lines of several rows with one key: the generators of a sheet, its logicals of each kind, the
// canonical generators.
#![tactic(auto)]

ghost use Rattle.std.specs.Prelude.{◌≡◌, ◌≤◌, min, length, take};
ghost use Rattle.code_record.specs.Record.{row_room, most_qubits};
ghost use Rattle.sheet.specs.Text.{laid};
ghost use Rattle.rows_writer.specs.Rows.{rows_text, write_rows};

use code_record::{ROW_ROOM, check_qubits};
use pauli::Pauli;
use refusals::{Refusal, bytes_written};

// How many rows there are in an array, where `count` are asked for.
pub fn rows_there(count: usize) -> usize
    ensures { result ≡ min count row_room }
{
    count.min(ROW_ROOM)
}

// The lines of rows, where there is room for them.
fn row_lines(out: &mut [u8], key: u8, n: usize, rows: &[Pauli]) -> usize
    requires le_n { 2 ≤ n }
    requires n_le_most_qubits { n ≤ most_qubits }
    requires rows_in_bounds { length (rows_text key n rows.now) ≤ length out.old }
    ensures value { result ≡ length (rows_text key n rows.now) }
    ensures out_after { out.new ≡ laid (rows_text key n rows.now) out.old }
{
    let mut end: usize = 0;
    for row in rows {
        end += bytes_written(row_writer::write_row(key, n, *row, &mut out[end..]));
    }
    end
}

// The lines of the first `count` rows of an array, or of all where it has fewer, into an output buffer: 15 where n is
// not 2 to 24, then 17 where the buffer is shorter than the lines, then the lines' bytes and their count. Each line is
// that of `write_row`.
pub fn write_rows(
    key: u8,
    n: usize,
    count: usize,
    rows: [Pauli; ROW_ROOM],
    out: &mut [u8],
) -> Result<usize, Refusal>
    ensures value { result ≡ (write_rows key n (take count rows) out.old).answer }
    ensures out_after { out.new ≡ (write_rows key n (take count rows) out.old).buffer }
{
    check_qubits(n)?;
    let there = rows_there(count);
    if out.len() < there * (n + 4) {
        return Err(Refusal::ShortBuffer);
    }
    Ok(row_lines(out, key, n, &rows[..there]))
}
