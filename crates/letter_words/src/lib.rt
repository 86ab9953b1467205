// The words of a code's letters, by which the search goes through its errors: each letter at each qubit has its
// syndrome as a mask. A letter by itself with a given syndrome is found without words.
#![tactic(auto)]

ghost use Rattle.std.specs.Prelude.{cond, ◌≡◌, ◌+◌, ◌*◌, ◌/◌, ◌%◌, ◌^◌, ◌<◌, eqb};
ghost use Rattle.code_record.specs.Record.{generators};
ghost use Rattle.letter_sums.specs.Sums.{qubit_room, found_as};
ghost use Rattle.letter_words.specs.Words.{syndrome_words, with_generators};
ghost use Rattle.letter_words.specs.Lone.{lone_letter, AreCandidates};

use code_record::{Code, ROW_ROOM};
use letter_sums::{FoundMasks, LetterWords, QUBIT_ROOM, WORD_ROOM};
use pauli::Pauli;

// The bits of a row's masks at a qubit: that of the X mask at the place 0, and that of the Z mask at the place 32.
fn bits_at(row: Pauli, qubit: usize) -> u64
    requires { qubit < qubit_room }
    ensures { result ≡ row.a / 2 ^ qubit % 2 + 2 ^ 32 * (row.b / 2 ^ qubit % 2) }
{
    let masks = row.a as u64 + 4294967296 * (row.b as u64);
    (masks >> qubit) & 4294967297
}

// The words by n, r and the generators' rows, which are all that is copied of the record. X at a qubit anticommutes
// with the generators that have the qubit's bit in their Z mask, and Z with those that have it in their X mask. Y is
// the product of the two. So the bits are read from the rows, from the last generator on, each doubling those behind
// it. The word of Z is the low half of one number and the word of X the high half, so that one sum doubles both: a
// word has no more than 32 bits, and never reaches into the other half.
fn words_of(n: usize, r: usize, g: [Pauli; ROW_ROOM]) -> LetterWords
    ensures { result ≡ syndrome_words (with_generators n r g) }
{
    let qubits = n.min(QUBIT_ROOM);
    let count = r.min(ROW_ROOM);
    let mut words = LetterWords {
        qubits,
        first: [0; WORD_ROOM],
        second: [0; WORD_ROOM],
    };
    for right in 0..qubits {
        let qubit = qubits - 1 - right;
        let mut both: u64 = 0;
        for place in (0..count).rev() {
            let row = g[place];
            both = 2 * both + bits_at(row, qubit);
        }
        let x = (both >> 32) as u32;
        let z = (both % 4294967296) as u32;
        let at = 3 * right;
        words.first[at] = x;
        words.first[at + 1] = x ^ z;
        words.first[at + 2] = z;
    }
    words
}

// The syndromes of the letters X, Y, Z at each qubit are the first words; the second words are 0.
pub fn syndrome_words(code: Code) -> LetterWords
    ensures { result ≡ syndrome_words code }
{
    let g = code.g;
    words_of(code.n, code.r, g)
}

// The qubits at which X, Y and Z by themselves have a syndrome, each set as a mask.
#[derive(Clone, Copy)]
struct LetterSets {
    x: u32,
    y: u32,
    z: u32,
}

// All qubits where a number is 0, and none where it is not.
fn all_or_none(number: u64) -> u32
    ensures { result ≡ cond (eqb number 0) 4294967295 0 }
{
    if number == 0 { 4294967295 } else { 0 }
}

// They are found for all qubits at once, generator by generator: those stay whose letter has its bit of the syndrome.
// Where that is 0, a mask's zeros are wanted, so it is turned over. No letter has a syndrome with bits above the last
// generator's.
fn candidates(r: usize, g: [Pauli; ROW_ROOM], syndrome: u32) -> LetterSets
    ensures { AreCandidates (generators (with_generators 0 r g)) syndrome result }
{
    let count = r.min(ROW_ROOM);
    let all = all_or_none((syndrome as u64) >> count);
    let mut x = all;
    let mut y = all;
    let mut z = all;
    for place in (0..count).rev() {
        let row = g[place];
        let turned = all_or_none(((syndrome >> place) % 2) as u64);
        x &= row.b ^ turned;
        y &= row.a ^ row.b ^ turned;
        z &= row.a ^ turned;
    }
    LetterSets { x, y, z }
}

// The earliest string of one letter that has a syndrome, for a record of which n, r and the generators' rows are given.
// The fewer qubits are behind the letter, the earlier is the string.
pub fn lone_letter(n: usize, r: usize, g: [Pauli; ROW_ROOM], syndrome: u32) -> Option<FoundMasks>
    ensures { result ≡ found_as (lone_letter (with_generators n r g) syndrome) }
{
    let fitting = candidates(r, g, syndrome);
    for qubit in (0..n.min(QUBIT_ROOM)).rev() {
        let bit = 1u32 << qubit;
        if (fitting.x >> qubit) % 2 == 1 {
            return Some(FoundMasks { a: bit, b: 0 });
        }
        if (fitting.y >> qubit) % 2 == 1 {
            return Some(FoundMasks { a: bit, b: bit });
        }
        if (fitting.z >> qubit) % 2 == 1 {
            return Some(FoundMasks { a: 0, b: bit });
        }
    }
    None
}
