// The words by which the search finds a code's logical errors: beside its syndrome each letter at each qubit has what
// the canonical generators leave of it.
#![tactic(auto)]

ghost use Rattle.std.specs.Prelude.{◌≡◌, ℕ, ◌<◌, get_or};
ghost use Rattle.reduced_rows.specs.Rows.{rows_in};
ghost use Rattle.logical_words.specs.Words.{mask_word, rows_at, logical_words};

use code_record::{Code, ROW_ROOM};
use columns::pivot;
use letter_sums::LetterWords;
use letter_words::syndrome_words;
use pauli::Pauli;
use reduced_rows::ReducedRows;

// A Pauli's two masks side by side in one word, phase aside: the X part below, the Z part above.
fn mask_word(p: Pauli) -> u64
    ensures { result ≡ mask_word p }
{
    p.a as u64 + 4294967296 * (p.b as u64)
}

// For each column the sum of the rows that have their first one there: of one row at most, where they are in reduced
// echelon form. The columns are the 64 bits of a word; the last place is that of rows with no one.
fn rows_by_pivot(rows: ReducedRows) -> [u64; 65]
    ensures { (column : ℕ) → column < 65 → get_or result column 0 ≡ rows_at (rows_in rows) column }
{
    let mut sums = [0; 65];
    for row in &rows.rows[..rows.count.min(ROW_ROOM)] {
        let column = pivot(32, *row);
        sums[column] ^= mask_word(*row);
    }
    sums
}

// The syndromes of the letters X, Y, Z at each qubit are the first words, and what the rows leave of them the second.
// In reduced echelon form no other row has a one in the column of a row's first one. So of X or Z, which is a one in
// one column, the rows leave this one and the row that begins there. What they leave of Y, the product of the two, is
// the sum.
pub fn logical_words(code: Code, rows: ReducedRows) -> LetterWords
    ensures { result ≡ logical_words code rows }
{
    let mut words = syndrome_words(code);
    let sums = rows_by_pivot(rows);
    let qubits = words.qubits;
    for right in 0..qubits {
        let qubit = qubits - 1 - right;
        let x = (1u64 << qubit) ^ sums[qubit];
        let z = (4294967296u64 << qubit) ^ sums[qubit + 32];
        let at = 3 * right;
        words.second[at] = x;
        words.second[at + 1] = x ^ z;
        words.second[at + 2] = z;
    }
    words
}
