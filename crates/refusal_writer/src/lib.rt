// The writer of a refusal, as a report has it: the lines of its number and of the line named, and for 14 those of the
// two errors.
#![tactic(auto)]

ghost use Rattle.std.specs.Prelude.{◌≡◌, ◌≤◌, length};
ghost use Rattle.code_record.specs.Record.{most_qubits};
ghost use Rattle.sheet.specs.Text.{laid};
ghost use Rattle.reporting.specs.Report.{refusal_text};
ghost use Rattle.refusal_writer.specs.RefusalLines.{write_refusal};

use code_record::check_qubits;
use number_writer::digit_count;
use numbers_writer::write_numbers;
use refusals::{ErrorPair, Refusal, bytes_written};
use row_writer::write_letters;

// The lines of 14, where there is room for them.
fn refutation_lines(out: &mut [u8], line: usize, pair: ErrorPair) -> usize
    requires le_n { 2 ≤ pair.n }
    requires n_le_most_qubits { pair.n ≤ most_qubits }
    requires pair_in_bounds { length (refusal_text (Refusal.DistanceRefuted line pair)) ≤ length out.old }
    ensures value { result ≡ length (refusal_text (Refusal.DistanceRefuted line pair)) }
    ensures out_after { out.new ≡ laid (refusal_text (Refusal.DistanceRefuted line pair)) out.old }
{
    let mut end = bytes_written(write_numbers(b"r=", 14, b"at=", line, out));
    end += bytes_written(write_letters(b'e', pair.n, pair.e, &mut out[end..]));
    end += bytes_written(write_letters(b'f', pair.n, pair.f, &mut out[end..]));
    end
}

// The lines of 14 by themselves. The first has five bytes, the second four beside its digits, each error's n + 3.
fn write_refutation(line: usize, pair: ErrorPair, out: &mut [u8]) -> Result<usize, Refusal>
    ensures value { result ≡ (write_refusal (Refusal.DistanceRefuted line pair) out.old).answer }
    ensures out_after { out.new ≡ (write_refusal (Refusal.DistanceRefuted line pair) out.old).buffer }
{
    let n = pair.n;
    check_qubits(n)?;
    if out.len() < digit_count(line) + 9 + 2 * (n + 3) {
        return Err(Refusal::ShortBuffer);
    }
    Ok(refutation_lines(out, line, pair))
}

// The lines of a refusal, into an output buffer: 15 where its two errors are not on 2 to 24 qubits, then 17 where the
// buffer is shorter than the lines, then the lines' bytes and their count.
pub fn write_refusal(refusal: Refusal, out: &mut [u8]) -> Result<usize, Refusal>
    ensures value { result ≡ (write_refusal refusal out.old).answer }
    ensures out_after { out.new ≡ (write_refusal refusal out.old).buffer }
{
    let values = refusal.values();
    let Refusal::DistanceRefuted(line, pair) = refusal else {
        return write_numbers(b"r=", values.number as usize, b"at=", values.line, out);
    };
    write_refutation(line, pair, out)
}
