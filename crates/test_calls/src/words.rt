// The parts that a text is made of: words, and signed rows.
use letters::{Letter, Sign};
use pauli::Pauli;

// A row, and how many letters it has.
#[derive(Clone, Copy)]
pub struct Row {
    pub row: Pauli,
    pub width: u32,
}

// A sign and up to 32 letters.
pub fn read_row(word: &[u8]) -> Option<Row> {
    let (sign, letters) = word.split_first()?;
    let sign = Sign::read(*sign)?;
    if letters.is_empty() || 32 < letters.len() {
        return None;
    }
    let mut a: u32 = 0;
    let mut b: u32 = 0;
    for (place, byte) in letters.iter().enumerate() {
        let letter = Letter::read(*byte)?;
        a |= letter.x_bit() << place;
        b |= letter.z_bit() << place;
    }
    let row = Pauli::signed(sign, a, b);
    let width = letters.len() as u32;
    Some(Row { row, width })
}
