// The reader of a sheet's lines, with anything behind them. A reading answers how many bytes the lines took, or the
// refusal that ended it.
#![tactic(auto)]

ghost use Rattle.std.specs.Prelude.{◌≡◌, ◌≤◌, length, drop};
ghost use Rattle.code_record.specs.Record.{most_qubits};
ghost use Rattle.sheet.specs.Reader.{sheet_lines, answered, lines_reading};
ghost use Rattle.reader.specs.Lines.{lines_from_d};

use code_record::{LONGEST_INPUT, LinesReading};
use refusals::Refusal;

// The lines from the byte `from` on: d and what follows.
fn lines_from_d(s: &[u8], from: usize, n: usize) -> LinesReading
    requires from_in_bounds { from ≤ length s.now }
    requires n_le_most_qubits { n ≤ most_qubits }
    ensures { result ≡ answered s.now (lines_from_d n (drop from s.now)) }
{
    let distance = number_reader::distance_line(&s[from..]);
    let Ok(line) = distance else {
        return LinesReading::refused(distance.map(|line| line.used));
    };
    ordered_lines::lines_from_g(s, from + line.used, n, line.number)
}

// The lines of a sheet, in their order.
fn sheet_lines(s: &[u8]) -> LinesReading
    ensures { result ≡ answered s.now (sheet_lines s.now) }
{
    let qubits = number_reader::qubit_line(s);
    let Ok(line) = qubits else {
        return LinesReading::refused(qubits.map(|line| line.used));
    };
    lines_from_d(s, line.used, line.number)
}

// The lines of a sheet with anything behind them, as a report has them.
pub fn read_lines(s: &[u8]) -> LinesReading
    ensures { result ≡ lines_reading s.now }
{
    if LONGEST_INPUT < s.len() {
        return LinesReading::refused(Err(Refusal::TooLong));
    }
    sheet_lines(s)
}
