// The lines of a sheet from the g lines on, one after the other: g, x and z, and w. Each function reads one kind and
// goes on with the next, or ends the reading with a refusal.
#![tactic(auto)]

ghost use Rattle.std.specs.Prelude.{◌≡◌, ◌+◌, ◌*◌, ◌≤◌, length};
ghost use Rattle.code_record.specs.Record.{row_room, most_qubits, first_generator_at};
ghost use Rattle.sheet.specs.Reader.{lines_after, answered};
ghost use Rattle.rows_reader.specs.Answers.{before, lines_at};
ghost use Rattle.ordered_lines.specs.Answers.{rows_and_claim, ReadsAfter};

use code_record::{FIRST_GENERATOR_AT, LinesReading, MOST_QUBITS};
use refusals::Refusal;
use rows_reader::{Rows, RowsFault};

// The answer for lines of rows, where the first of them is the line `at` of the sheet.
fn lines_at(answer: Result<usize, RowsFault>, at: usize) -> Result<usize, Refusal>
    requires answer_bound { before answer ≤ 2 * row_room }
    requires at_bound { at ≤ first_generator_at + row_room }
    ensures { result ≡ lines_at at answer }
{
    match answer {
        Ok(used) => Ok(used),
        Err(RowsFault::OffForm(lines)) => Err(Refusal::Form(at + lines)),
        Err(RowsFault::Miscounted(lines)) => Err(Refusal::GeneratorCount(at + lines)),
    }
}

// The lines behind the g lines, from the byte `from` and the line `at` on: x, z and w.
fn lines_after(
    s: &[u8],
    from: usize,
    n: usize,
    d: usize,
    at: usize,
    generators: Rows,
) -> LinesReading
    requires from_in_bounds { from ≤ length s.now }
    requires n_le_most_qubits { n ≤ most_qubits }
    requires at_bound { at ≤ first_generator_at + row_room }
    ensures { ReadsAfter s.now from generators (lines_after n d at) result }
{
    let r = generators.count;
    let read = rows_reader::logical_lines(&s[from..], n, r);
    let Ok(logicals) = read else {
        return LinesReading::refused(lines_at(read.map(|lines| lines.used), at));
    };
    let claim_at = at + 2 * code_record::pair_count(n, r);
    claim_reader::claim_after(
        s,
        from + logicals.used,
        n,
        d,
        claim_at,
        generators,
        logicals,
    )
}

// The lines from the byte `from` on: g, x, z and w. Where there is no such byte, and where a sheet may not have n
// qubits, the first of them is off its form.
pub fn lines_from_g(s: &[u8], from: usize, n: usize, d: usize) -> LinesReading
    ensures { result ≡ answered s.now (rows_and_claim from n d s.now) }
{
    if MOST_QUBITS < n {
        return LinesReading::off_form(FIRST_GENERATOR_AT);
    }
    if s.len() < from {
        return LinesReading::off_form(FIRST_GENERATOR_AT);
    }
    let read = rows_reader::generator_lines(&s[from..], n);
    let Ok(generators) = read else {
        return LinesReading::refused(lines_at(read.map(|lines| lines.used), FIRST_GENERATOR_AT));
    };
    let at = FIRST_GENERATOR_AT + generators.count;
    lines_after(s, from + generators.used, n, d, at, generators)
}
