// What the parts of a sheet's line behind its key are read as: words, which are numbers or letters, and the line feed
// at its end.
#![tactic(auto)]

ghost use Rattle.std.specs.Prelude.{◌≡◌, eqb, get_or};
ghost use Rattle.std.specs.Option.{is_some};
ghost use Rattle.letters.specs.Letters.{x_bit, z_bit, read_letter};
ghost use Rattle.code_record.specs.Record.{most_qubits};
ghost use Rattle.sheet.specs.Reader.{read_digit, read_number, read_letters};
ghost use Rattle.sheet.specs.Text.{line_feed};
ghost use Rattle.line_parts.specs.Values.{bit_of, most_digits, up_to};

use code_record::MOST_QUBITS;
use letters::{Letter, Sign};
use pauli::Pauli;

fn read_digit(c: u8) -> Option<usize>
    ensures { result ≡ read_digit c }
{
    if !c.is_ascii_digit() {
        return None;
    }
    Some((c - b'0') as usize)
}

// A number of one or two digits, the first not 0.
pub fn read_number(word: &[u8]) -> Option<usize>
    ensures { result ≡ up_to most_digits read_number word.now }
{
    if 2 < word.len() {
        return None;
    }
    if word.is_empty() {
        return None;
    }
    let first = read_digit(word[0])?;
    if first == 0 {
        return None;
    }
    if word.len() == 1 {
        return Some(first);
    }
    let second = read_digit(word[1])?;
    Some(first * 10 + second)
}

// Whether a byte is a letter, and below, the bits that the letter has in a row's masks. Each is told by itself, which
// is compiled to a comparison. One way for each letter would be a jump that is hard to foresee.
fn is_letter(c: u8) -> bool
    ensures { result ≡ is_some (read_letter c) }
{
    Letter::read(c).is_some()
}

fn x_bit(c: u8) -> u32
    ensures { result ≡ bit_of x_bit (read_letter c) }
{
    match Letter::read(c) {
        Some(letter) => letter.x_bit(),
        None => 0,
    }
}

fn z_bit(c: u8) -> u32
    ensures { result ≡ bit_of z_bit (read_letter c) }
{
    match Letter::read(c) {
        Some(letter) => letter.z_bit(),
        None => 0,
    }
}

// Letters, as a row with sign +. The masks grow from the last letter to the first.
pub fn read_letters(word: &[u8]) -> Option<Pauli>
    ensures { result ≡ up_to most_qubits read_letters word.now }
{
    if MOST_QUBITS < word.len() {
        return None;
    }
    let mut a: u32 = 0;
    let mut b: u32 = 0;
    for &c in word.iter().rev() {
        if !is_letter(c) {
            return None;
        }
        a = x_bit(c) + 2 * a;
        b = z_bit(c) + 2 * b;
    }
    Some(Pauli::signed(Sign::Plus, a, b))
}

// Whether a line feed stands at a place. Behind the last byte there is none.
pub fn line_feed_at(s: &[u8], place: usize) -> bool
    ensures { result ≡ eqb (get_or s.now place 0) line_feed }
{
    place < s.len() && s[place] == b'\n'
}
