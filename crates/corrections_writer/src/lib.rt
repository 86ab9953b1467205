// The writer of a report's `c=` lines: each syndrome is read, searched for and answered, one after the other.
#![tactic(auto)]

ghost use Rattle.std.specs.Prelude.{◌≡◌, ◌≤◌, length};
ghost use Rattle.code_record.specs.Record.{most_qubits};
ghost use Rattle.sheet.specs.Text.{laid};
ghost use Rattle.correction_lines.specs.CorrectionLines.{corrections_text};
ghost use Rattle.corrections_writer.specs.Corrections.{write_corrections};

use code_record::check_qubits;
use correction_lines::corrections_fit;
use correction_writer::write_correction;
use corrections::correct_by;
use letter_sums::LetterWords;
use refusals::{Refusal, bytes_written};
use syndrome_lines::read_syndrome_line;

// The lines, where there is room for them. Each is written from the end of the one before it onward. The loop goes on
// by each line that was read, so it is no `for`.
fn correction_lines(
    words: &LetterWords,
    t: usize,
    r: usize,
    syndromes: &[u8],
    out: &mut [u8],
) -> usize
    requires le_qubits { 2 ≤ words.now.qubits }
    requires qubits_le_most_qubits { words.now.qubits ≤ most_qubits }
    requires syndromes_in_bounds { length (corrections_text words.now t r syndromes.now) ≤ length out.old }
    ensures value { result ≡ length (corrections_text words.now t r syndromes.now) }
    ensures out_after { out.new ≡ laid (corrections_text words.now t r syndromes.now) out.old }
{
    let mut end: usize = 0;
    let mut place: usize = 0;
    while place < syndromes.len() {
        let Some(syndrome) = read_syndrome_line(&syndromes[place..], r) else {
            return end;
        };
        let correction = correct_by(words, t, syndrome);
        end += bytes_written(write_correction(words.qubits, correction, &mut out[end..]));
        place += r + 3;
    }
    end
}

// The `c=` lines for the `s=` lines of r generators with which the bytes begin, into an output buffer: 15 where no code
// has as many qubits as have words, then 17 where the buffer is shorter than the lines, then the lines' bytes and their
// count.
pub fn write_corrections(
    words: &LetterWords,
    t: usize,
    r: usize,
    syndromes: &[u8],
    out: &mut [u8],
) -> Result<usize, Refusal>
    ensures value { result ≡ (write_corrections words.now t r syndromes.now out.old).answer }
    ensures out_after { out.new ≡ (write_corrections words.now t r syndromes.now out.old).buffer }
{
    check_qubits(words.qubits)?;
    if !corrections_fit(words, t, r, syndromes, out.len()) {
        return Err(Refusal::ShortBuffer);
    }
    Ok(correction_lines(words, t, r, syndromes, out))
}
