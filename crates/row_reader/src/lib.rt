// The readers of the lines with letters, of a signed row and of w. Each is lent the bytes that remain, and does not
// know on which line they begin.
#![tactic(auto)]

ghost use Rattle.std.specs.Prelude.{◌≡◌, ◌≤◌};
ghost use Rattle.code_record.specs.Record.{most_qubits};
ghost use Rattle.refusals.specs.Families.{row_key};
ghost use Rattle.sheet.specs.Reader.{read_letters, row_line, claim_line};
ghost use Rattle.line_parts.specs.LineValues.{value_from};
ghost use Rattle.line_parts.specs.Values.{up_to};
ghost use Rattle.row_reader.specs.Answers.{row_behind_key, within_qubits, AnswersRow};

use code_record::MOST_QUBITS;
use letters::Sign;
use line_kinds::LineKind;
use pauli::Pauli;
use refusals::Family;

// The letters of a line, n of them from a place on. n is tested first, so that the place behind them is a usize.
fn line_letters(s: &[u8], from: usize, n: usize) -> Option<Pauli>
    requires { from ≤ 3 }
    ensures { result ≡ value_from from n (up_to most_qubits read_letters) s.now }
{
    if MOST_QUBITS < n {
        return None;
    }
    if !line_parts::line_feed_at(s, n + from) {
        return None;
    }
    line_parts::read_letters(&s[from..n + from])
}

// The row that a line is read as, and how many bytes the line took.
#[derive(Clone, Copy)]
pub struct RowRead {
    pub used: usize,
    pub row: Pauli,
}

// The line of a signed row behind any key: a sign, then n letters. A row of more qubits than a sheet may have is
// off its form.
pub fn signed_row(s: &[u8], n: usize) -> Option<RowRead>
    ensures { AnswersRow s.now result (λ at. within_qubits n at (row_behind_key n at)) }
{
    let plus = line_letters(s, 3, n)?;
    let sign = Sign::read(s[2])?;
    Some(RowRead {
        used: n + 4,
        row: Pauli::signed(sign, plus.a, plus.b),
    })
}

// The line of a family's row.
pub fn row_line(s: &[u8], family: Family, n: usize) -> Option<RowRead>
    ensures { AnswersRow s.now result (λ at. within_qubits n at (row_line (row_key family) n at)) }
{
    if !line_kinds::begins_row(s, family) {
        return None;
    }
    signed_row(s, n)
}

// The line of w: n letters.
pub fn claim_line(s: &[u8], n: usize) -> Option<RowRead>
    ensures { AnswersRow s.now result (λ at. within_qubits n at (claim_line n at)) }
{
    if line_kinds::line_kind(s) != LineKind::Claim {
        return None;
    }
    let row = line_letters(s, 2, n)?;
    Some(RowRead { used: n + 3, row })
}
