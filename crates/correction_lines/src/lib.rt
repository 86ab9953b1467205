// How much room the corrections of a report's `s=` lines need.
#![tactic(auto)]

ghost use Rattle.std.specs.Prelude.{◌≡◌, ◌≤◌, leb, length};
ghost use Rattle.code_record.specs.Record.{most_qubits};
ghost use Rattle.correction_writer.specs.Lines.{correction_text};
ghost use Rattle.correction_lines.specs.CorrectionLines.{corrections_text, corrections_fit};

use code_record::MOST_QUBITS;
use corrections::correct_by;
use letter_sums::LetterWords;
use pauli::Pauli;
use syndrome_lines::read_syndrome_line;

// The shortest `s=` line, of one generator.
const SHORTEST_SYNDROME: usize = 4;

// The longest `c=` line, of 24 letters.
const LONGEST_CORRECTION: usize = 27;

// How many bytes the line of a correction on n qubits has.
fn line_length(n: usize, correction: Option<Pauli>) -> usize
    requires { n ≤ most_qubits }
    ensures { result ≡ length (correction_text n correction) }
{
    match correction {
        Some(_) => n + 3,
        None => 7,
    }
}

// Whether the lines of the corrections fit, each correction being searched for. The loop goes on by each line that was
// read, so it is no `for`.
fn lines_fit(words: &LetterWords, t: usize, r: usize, syndromes: &[u8], room: usize) -> bool
    requires { words.now.qubits ≤ most_qubits }
    ensures { result ≡ leb (length (corrections_text words.now t r syndromes.now)) room }
{
    let mut left = room;
    let mut place: usize = 0;
    while place < syndromes.len() {
        let Some(syndrome) = read_syndrome_line(&syndromes[place..], r) else {
            return true;
        };
        let length = line_length(words.qubits, correct_by(words, t, syndrome));
        if left < length {
            return false;
        }
        left -= length;
        place += r + 3;
    }
    true
}

// Whether the lines of the corrections fit into so many bytes, for the `s=` lines of r generators with which the bytes
// begin. For another count of qubits than 2 to 24, which no record has, the answer is no. Where there is room for the
// longest line behind every syndrome nothing is searched for. With r = 0, which no record has, an `s=` line is shorter
// than that counts, so the lines are counted one by one.
pub fn corrections_fit(
    words: &LetterWords,
    t: usize,
    r: usize,
    syndromes: &[u8],
    room: usize,
) -> bool
    ensures { result ≡ corrections_fit words.now t r syndromes.now room }
{
    if !(2..=MOST_QUBITS).contains(&words.qubits) {
        return false;
    }
    if 1 <= r && syndromes.len() / SHORTEST_SYNDROME <= room / LONGEST_CORRECTION {
        return true;
    }
    lines_fit(words, t, r, syndromes, room)
}
