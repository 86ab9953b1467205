// The words of letters, by which strings are searched: two for each letter at each qubit.
#![tactic(auto)]

// How many qubits have words, as many as a mask has bits, and how many words that makes.
pub const QUBIT_ROOM: usize = 32;

pub const WORD_ROOM: usize = 96;

// Two words for each of the letters X, Y, Z at each of the qubits: those of the letter numbered l (0, 1, 2) at the
// qubit with m qubits to its right stand at the place 3 * m + l.
#[derive(Clone, Copy)]
pub struct LetterWords {
    pub qubits: usize,
    pub first: [u32; WORD_ROOM],
    pub second: [u64; WORD_ROOM],
}

// The masks of a string of letters: of its X parts, and of its Z parts.
#[derive(Clone, Copy)]
pub struct FoundMasks {
    pub a: u32,
    pub b: u32,
}
