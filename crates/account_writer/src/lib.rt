// The writer of a code's account in a report: its numbers, its canonical generators, and the corrections for the
// syndromes behind its sheet. The words of the code's letters are made once for all syndromes.
#![tactic(auto)]

ghost use Rattle.std.specs.Prelude.{◌≡◌, ◌≤◌, leb, length};
ghost use Rattle.code_record.specs.Record.{most_qubits};
ghost use Rattle.sheet.specs.Text.{laid};
ghost use Rattle.account_writer.specs.Account.{code_by, account_by, write_account};

use code_record::{Code, check_qubits, pair_count};
use correction_lines::corrections_fit;
use corrections::radius;
use corrections_writer::write_corrections;
use header_writer::{header_length, write_header};
use letter_sums::LetterWords;
use letter_words::syndrome_words;
use reduced_rows::ReducedRows;
use refusals::{Refusal, bytes_written};
use rows_writer::{rows_there, write_rows};

// The numbers and the canonical generators, where there is room for them.
fn code_lines(code: Code, reduced: ReducedRows, out: &mut [u8]) -> usize
    requires le_n { 2 ≤ code.n }
    requires n_le_most_qubits { code.n ≤ most_qubits }
    requires reduced_in_bounds { length (code_by code reduced) ≤ length out.old }
    ensures value { result ≡ length (code_by code reduced) }
    ensures out_after { out.new ≡ laid (code_by code reduced) out.old }
{
    let rows = reduced.rows;
    let k = pair_count(code.n, code.r);
    let mut end = bytes_written(write_header(code.n, k, code.d, radius(code), out));
    end += bytes_written(write_rows(b'h', code.n, reduced.count, rows, &mut out[end..]));
    end
}

// How many bytes they have.
fn code_length(code: Code, reduced: ReducedRows) -> usize
    requires { code.n ≤ most_qubits }
    ensures { result ≡ length (code_by code reduced) }
{
    let k = pair_count(code.n, code.r);
    header_length(code.n, k, code.d, radius(code)) + rows_there(reduced.count) * (code.n + 4)
}

// Whether so many bytes hold all lines.
fn account_fits(
    code: Code,
    reduced: ReducedRows,
    words: &LetterWords,
    syndromes: &[u8],
    room: usize,
) -> bool
    requires n_le_most_qubits { code.n ≤ most_qubits }
    requires le_qubits { 2 ≤ words.now.qubits }
    requires qubits_le_most_qubits { words.now.qubits ≤ most_qubits }
    ensures { result ≡ leb (length (account_by code reduced words.now syndromes.now)) room }
{
    let front = code_length(code, reduced);
    if room < front {
        return false;
    }
    corrections_fit(words, radius(code), code.r, syndromes, room - front)
}

// All lines, where there is room for them.
fn account_lines(
    code: Code,
    reduced: ReducedRows,
    words: &LetterWords,
    syndromes: &[u8],
    out: &mut [u8],
) -> usize
    requires le_n { 2 ≤ code.n }
    requires n_le_most_qubits { code.n ≤ most_qubits }
    requires le_qubits { 2 ≤ words.now.qubits }
    requires qubits_le_most_qubits { words.now.qubits ≤ most_qubits }
    requires syndromes_in_bounds { length (account_by code reduced words.now syndromes.now) ≤ length out.old }
    ensures value { result ≡ length (account_by code reduced words.now syndromes.now) }
    ensures out_after { out.new ≡ laid (account_by code reduced words.now syndromes.now) out.old }
{
    let mut end = code_lines(code, reduced, out);
    end += bytes_written(write_corrections(
        words,
        radius(code),
        code.r,
        syndromes,
        &mut out[end..],
    ));
    end
}

// The account of a code by canonical generators that were found, and of the `s=` lines with which the bytes begin, into
// an output buffer: 15 where no code has as many qubits, then 17 where the buffer is shorter than the lines, then the
// lines' bytes and their count. It makes no other check of the code, since who has its canonical generators has made
// them.
pub fn write_account(
    code: Code,
    reduced: ReducedRows,
    syndromes: &[u8],
    out: &mut [u8],
) -> Result<usize, Refusal>
    ensures value { result ≡ (write_account code reduced syndromes.now out.old).answer }
    ensures out_after { out.new ≡ (write_account code reduced syndromes.now out.old).buffer }
{
    check_qubits(code.n)?;
    let words = syndrome_words(code);
    if !account_fits(code, reduced, &words, syndromes, out.len()) {
        return Err(Refusal::ShortBuffer);
    }
    Ok(account_lines(code, reduced, &words, syndromes, out))
}
