// Letters and signs: their bits and phases, and the bytes that they are written as.
#![tactic(auto)]

ghost use Rattle.std.specs.Prelude.{◌≡◌, ◌%◌};
ghost use Rattle.letters.specs.Letters.{letter_at, x_bit, z_bit, struck_letter};
ghost use Rattle.letters.specs.Letters.{letter_byte, read_letter};
ghost use Rattle.letters.specs.Letters.{sign_phase, sign_byte, read_sign};

// A letter of a qubit.
#[derive(Clone, Copy, PartialEq, Eq)]
pub enum Letter {
    I,
    X,
    Y,
    Z,
}

impl Letter {
    // The letter chosen by the lowest bits of x and z.
    pub fn of_bits(x: u32, z: u32) -> Letter
        ensures { result ≡ letter_at (x % 2) (z % 2) }
    {
        match x % 2 + 2 * (z % 2) {
            0 => Letter::I,
            1 => Letter::X,
            2 => Letter::Z,
            _ => Letter::Y,
        }
    }

    // Its bit in the X mask, and in the Z mask.
    pub fn x_bit(self) -> u32
        ensures { result ≡ x_bit self }
    {
        match self {
            Letter::I => 0,
            Letter::X => 1,
            Letter::Y => 1,
            Letter::Z => 0,
        }
    }

    pub fn z_bit(self) -> u32
        ensures { result ≡ z_bit self }
    {
        match self {
            Letter::I => 0,
            Letter::X => 0,
            Letter::Y => 1,
            Letter::Z => 1,
        }
    }

    // The letters that strike a qubit, by number: X, Y, Z are 0, 1, 2.
    pub fn struck(number: usize) -> Letter
        ensures { result ≡ struck_letter number }
    {
        match number {
            0 => Letter::X,
            1 => Letter::Y,
            _ => Letter::Z,
        }
    }

    // The letter that a byte is, where it is one.
    pub fn read(c: u8) -> Option<Letter>
        ensures { result ≡ read_letter c }
    {
        match c {
            b'I' => Some(Letter::I),
            b'X' => Some(Letter::X),
            b'Y' => Some(Letter::Y),
            b'Z' => Some(Letter::Z),
            _ => None,
        }
    }

    pub fn byte(self) -> u8
        ensures { result ≡ letter_byte self }
    {
        match self {
            Letter::I => b'I',
            Letter::X => b'X',
            Letter::Y => b'Y',
            Letter::Z => b'Z',
        }
    }
}

// The sign of a row.
#[derive(Clone, Copy, PartialEq, Eq)]
pub enum Sign {
    Plus,
    Minus,
}

impl Sign {
    // What the sign adds to a row's phase.
    pub fn phase(self) -> u32
        ensures { result ≡ sign_phase self }
    {
        match self {
            Sign::Plus => 0,
            Sign::Minus => 2,
        }
    }

    // The sign that a byte is, where it is one.
    pub fn read(c: u8) -> Option<Sign>
        ensures { result ≡ read_sign c }
    {
        match c {
            b'+' => Some(Sign::Plus),
            b'-' => Some(Sign::Minus),
            _ => None,
        }
    }

    pub fn byte(self) -> u8
        ensures { result ≡ sign_byte self }
    {
        match self {
            Sign::Plus => b'+',
            Sign::Minus => b'-',
        }
    }
}
