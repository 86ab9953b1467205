// Paulis with phase, by value, and the letters and signs that they are written as.
#![tactic(auto)]

ghost use Rattle.std.specs.Prelude.{◌≡◌};
ghost use Rattle.pauli.specs.Letters.{letter_on, row_phase, row_of, has_sign, is_signed_row, sign_of};
ghost use Rattle.pauli.specs.Product.{identity, product, symplectic, commutes, weight};

use letters::{Letter, Sign};

// i^p D(a, b): the phase p is read modulo 4, a is the X part and b the Z part.
// Qubit j is bit j - 1 of both masks.
#[repr(C)]
#[derive(Clone, Copy)]
pub struct Pauli {
    pub p: u32,
    pub a: u32,
    pub b: u32,
}

impl Pauli {
    pub fn identity() -> Pauli
        ensures { result ≡ identity }
    {
        Pauli { p: 0, a: 0, b: 0 }
    }

    // Twice a count is read modulo 4, so only the count's parity is needed, which is cheaper.
    pub fn product(self, q: Pauli) -> Pauli
        ensures { result ≡ product self q }
    {
        Pauli {
            p: (self.p % 4 + q.p % 4 + 2 * (u32::count_ones(self.b & q.a) % 2)) % 4,
            a: self.a ^ q.a,
            b: self.b ^ q.b,
        }
    }

    // 0 where the two commute, 1 where they anticommute.
    pub fn symplectic(self, q: Pauli) -> u32
        ensures { result ≡ symplectic self q }
    {
        u32::count_ones((self.a & q.b) ^ (q.a & self.b)) % 2
    }

    pub fn commutes(self, q: Pauli) -> bool
        ensures { result ≡ commutes self q }
    {
        self.symplectic(q) == 0
    }

    pub fn weight(self) -> u32
        ensures { result ≡ weight self }
    {
        u32::count_ones(self.a | self.b)
    }

    // The letter at a place, which counts from 0: place j is qubit j + 1.
    pub fn letter_on(self, place: usize) -> Letter
        ensures { result ≡ letter_on place self }
    {
        if place < 32 {
            Letter::of_bits(self.a >> place, self.b >> place)
        } else {
            Letter::I
        }
    }

    // The row with this sign and these masks.
    pub fn signed(sign: Sign, a: u32, b: u32) -> Pauli
        ensures { result ≡ row_of sign a b }
    {
        Pauli {
            p: row_phase(sign, a, b),
            a,
            b,
        }
    }

    pub fn has_sign(self, sign: Sign) -> bool
        ensures { result ≡ has_sign sign self }
    {
        self.p % 4 == row_phase(sign, self.a, self.b)
    }

    pub fn is_signed_row(self) -> bool
        ensures { result ≡ is_signed_row self }
    {
        self.has_sign(Sign::Plus) || self.has_sign(Sign::Minus)
    }

    // The sign of a signed row.
    pub fn sign(self) -> Sign
        ensures { result ≡ sign_of self }
    {
        if self.has_sign(Sign::Plus) {
            Sign::Plus
        } else {
            Sign::Minus
        }
    }
}

// The phase of the row with this sign and these masks.
fn row_phase(sign: Sign, a: u32, b: u32) -> u32
    ensures { result ≡ row_phase sign a b }
{
    (u32::count_ones(a & b) + sign.phase()) % 4
}
