// The readers of the lines of n and d. Each is lent the bytes that remain, and answers how many of them the line took,
// with its number, or the refusal that ends the reading.
#![tactic(auto)]

ghost use Rattle.std.specs.Prelude.{◌≡◌, ◌≤◌};
ghost use Rattle.sheet.specs.Reader.{continue, qubit_digits, read_number, in_range, qubit_line, distance_line};
ghost use Rattle.line_parts.specs.LineValues.{value_from};
ghost use Rattle.line_parts.specs.Values.{most_digits, up_to};
ghost use Rattle.number_reader.specs.Answers.{number_behind_key, number_answer};

use code_record::{MOST_DISTANCE, MOST_QUBITS};
use line_kinds::LineKind;
use refusals::Refusal;

// The number of a line with so many digits, behind any key.
fn line_number(s: &[u8], digits: usize) -> Option<usize>
    requires { digits ≤ most_digits }
    ensures { result ≡ value_from 2 digits (up_to most_digits read_number) s.now }
{
    if !line_parts::line_feed_at(s, digits + 2) {
        return None;
    }
    line_parts::read_number(&s[2..digits + 2])
}

// How many bytes a line with a number took, and the number.
#[derive(Clone, Copy)]
pub struct NumberLine {
    pub used: usize,
    pub number: usize,
}

// A line with a number of so many digits, behind any key, where the number is low to high.
fn number_line(
    s: &[u8],
    digits: usize,
    at: usize,
    low: usize,
    high: usize,
    outside: Refusal,
) -> Result<NumberLine, Refusal>
    requires { digits ≤ most_digits }
    ensures { result ≡ number_answer s.now (continue (number_behind_key digits at s.now)
        (in_range low high outside)) }
{
    let number = line_number(s, digits).ok_or(Refusal::Form(at))?;
    if !(low..=high).contains(&number) {
        return Err(outside);
    }
    Ok(NumberLine {
        used: digits + 3,
        number,
    })
}

// One digit where a line feed follows the first, else two.
fn qubit_digits(s: &[u8]) -> usize
    ensures { result ≡ qubit_digits s.now }
{
    if line_parts::line_feed_at(s, 3) { 1 } else { 2 }
}

// The line of n.
pub fn qubit_line(s: &[u8]) -> Result<NumberLine, Refusal>
    ensures { result ≡ number_answer s.now (qubit_line s.now) }
{
    if line_kinds::line_kind(s) != LineKind::Qubits {
        return Err(Refusal::Form(1));
    }
    let digits = qubit_digits(s);
    number_line(s, digits, 1, 2, MOST_QUBITS, Refusal::QubitCount(1))
}

// The line of d.
pub fn distance_line(s: &[u8]) -> Result<NumberLine, Refusal>
    ensures { result ≡ number_answer s.now (distance_line s.now) }
{
    if line_kinds::line_kind(s) != LineKind::Distance {
        return Err(Refusal::Form(2));
    }
    number_line(s, 1, 2, 1, MOST_DISTANCE, Refusal::DistanceRange(2))
}
