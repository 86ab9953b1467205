// The writer of the lines of all rows of a record, family by family.
#![tactic(auto)]

ghost use Rattle.std.specs.Prelude.{◌≡◌, ◌≤◌, length};
ghost use Rattle.code_record.specs.Record.{most_qubits};
ghost use Rattle.sheet.specs.Text.{laid};
ghost use Rattle.families_writer.specs.Families.{families_text, family_rows, write_families};

use code_record::{Code, check_qubits, pair_count};
use refusals::{Refusal, bytes_written};
use rows_writer::{rows_there, write_rows};

// The lines of the generators, of the X logicals and of the Z logicals, where there is room for them.
fn family_lines(out: &mut [u8], code: Code) -> usize
    requires le_n { 2 ≤ code.n }
    requires n_le_most_qubits { code.n ≤ most_qubits }
    requires code_in_bounds { length (families_text code) ≤ length out.old }
    ensures value { result ≡ length (families_text code) }
    ensures out_after { out.new ≡ laid (families_text code) out.old }
{
    let k = pair_count(code.n, code.r);
    let mut end = bytes_written(write_rows(b'g', code.n, code.r, code.g, out));
    end += bytes_written(write_rows(b'x', code.n, k, code.x, &mut out[end..]));
    end += bytes_written(write_rows(b'z', code.n, k, code.z, &mut out[end..]));
    end
}

// How many lines these are. No family has more rows than its array has places.
fn row_count(n: usize, r: usize) -> usize
    ensures { result ≡ family_rows n r }
{
    rows_there(r) + 2 * rows_there(pair_count(n, r))
}

// The lines of a record's rows, into an output buffer: 15 where n is not 2 to 24, then 17 where the buffer is shorter
// than the lines, then the lines' bytes and their count. The record need not be within limits.
pub fn write_families(code: Code, out: &mut [u8]) -> Result<usize, Refusal>
    ensures value { result ≡ (write_families code out.old).answer }
    ensures out_after { out.new ≡ (write_families code out.old).buffer }
{
    let n = code.n;
    check_qubits(n)?;
    if out.len() < row_count(n, code.r) * (n + 4) {
        return Err(Refusal::ShortBuffer);
    }
    Ok(family_lines(out, code))
}
