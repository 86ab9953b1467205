// The lines of a sheet's rows: the g lines, and the x and z lines. Each reader is lent the bytes that remain. It does
// not know on which line they begin, so a refusal has the count of the lines before the one that is refused.
#![tactic(auto)]

ghost use Rattle.std.specs.Prelude.{◌≡◌, ◌*◌, ◌≤◌};
ghost use Rattle.code_record.specs.Record.{row_room, pair_count};
ghost use Rattle.sheet.specs.Reader.{generator_lines};
ghost use Rattle.row_reader.specs.Answers.{within_qubits};
ghost use Rattle.rows_reader.specs.Answers.{before, AnswersRows, AnswersLogicals, pair_lines};

use code_record::{MOST_QUBITS, ROW_ROOM};
use pauli::Pauli;
use refusals::Family;

// Why a line of rows is refused, behind so many that were read.
#[derive(Clone, Copy)]
pub enum RowsFault {
    // the line is off its form, or missing
    OffForm(usize),
    // there is no generator, or the line is one too many
    Miscounted(usize),
}

// How many bytes the g lines took, the count of the generators, and their rows.
#[derive(Clone, Copy)]
pub struct Rows {
    pub used: usize,
    pub count: usize,
    pub rows: [Pauli; ROW_ROOM],
}

// The g lines of n qubits, one at least and n - 1 at most. Rows of more qubits than a sheet may have are off their
// form.
pub fn generator_lines(s: &[u8], n: usize) -> Result<Rows, RowsFault>
    ensures answer_bound { before result ≤ row_room }
    ensures answers_rows { AnswersRows s.now result (λ at. within_qubits n at (generator_lines n at)) }
{
    if MOST_QUBITS < n {
        return Err(RowsFault::OffForm(0));
    }
    let most = code_record::most_generators(n);
    let read = gathered_rows::rows_up_to(s, Family::Generator, most, n);
    let used = read.end;
    let count = read.count;
    if line_kinds::begins_row(&s[used..], Family::Generator) {
        if count < most {
            return Err(RowsFault::OffForm(count));
        }
        return Err(RowsFault::Miscounted(count));
    }
    if count == 0 {
        return Err(RowsFault::Miscounted(0));
    }
    // The check covers no array that a literal takes from a field, so it goes by a variable.
    let rows = read.rows;
    Ok(Rows { used, count, rows })
}

// How many bytes the x and z lines took, and their rows.
#[derive(Clone, Copy)]
pub struct Logicals {
    pub used: usize,
    pub x: [Pauli; ROW_ROOM],
    pub z: [Pauli; ROW_ROOM],
}

// The x and z lines of n qubits and r generators, as many of each as there are pairs of logicals. Rows of more qubits
// than a sheet may have are off their form.
pub fn logical_lines(s: &[u8], n: usize, r: usize) -> Result<Logicals, RowsFault>
    ensures answer_bound { before result ≤ 2 * row_room }
    ensures answers_logicals { AnswersLogicals s.now result
        (λ at. within_qubits n at (pair_lines (pair_count n r) n at)) }
{
    if MOST_QUBITS < n {
        return Err(RowsFault::OffForm(0));
    }
    let k = code_record::pair_count(n, r);
    let xs = gathered_rows::rows_up_to(s, Family::LogicalX, k, n);
    if xs.count < k {
        return Err(RowsFault::OffForm(xs.count));
    }
    let end = xs.end;
    let zs = gathered_rows::rows_up_to(&s[end..], Family::LogicalZ, k, n);
    if zs.count < k {
        return Err(RowsFault::OffForm(k + zs.count));
    }
    // The check covers no array that a literal takes from a field, so each goes by a variable.
    let x = xs.rows;
    let z = zs.rows;
    Ok(Logicals {
        used: end + zs.end,
        x,
        z,
    })
}
