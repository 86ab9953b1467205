// The columns of a row, read as bits a1..an, b1..bn: where its first one stands, whether a mask has a one at all, how a
// row is cleared by another, and the phase that it then gets. This is what an elimination does most. So the X part and
// the Z part are told apart by branches, and no column is computed where a bit is tested.
#![tactic(auto)]

ghost use Rattle.std.specs.Prelude.{◌≡◌, ◌/◌, ◌%◌, ◌^◌, eqb, ltb};
ghost use Rattle.pauli.specs.Masks.{bits};
ghost use Rattle.pauli.specs.Product.{identity, modulo4, same_masks};
ghost use Rattle.stabilizer.specs.Canonical.{first_one, column, pivot, cleared};

use pauli::Pauli;

// Whether a mask has a one among its n lowest bits.
fn has_one(n: u32, m: u32) -> bool
    ensures { result ≡ ltb (first_one (bits n m)) n }
{
    let zeros = m.trailing_zeros();
    zeros < 32 && zeros < n
}

// How many of a mask's n lowest bits stand below its first one: all n where there is none.
fn first_one(n: u32, m: u32) -> u32
    ensures { result ≡ first_one (bits n m) }
{
    if has_one(n, m) {
        return m.trailing_zeros();
    }
    n
}

// The column of a row's first one, read as bits a1..an, b1..bn; 2n where it has none.
pub fn pivot(n: u32, p: Pauli) -> usize
    ensures { result ≡ pivot n p }
{
    if has_one(n, p.a) {
        return first_one(n, p.a) as usize;
    }
    n as usize + first_one(n, p.b) as usize
}

// Whether a Pauli is nothing but a phase: no mask has a one.
pub fn is_phase(p: Pauli) -> bool
    ensures { result ≡ same_masks p identity }
{
    p.a == 0 && p.b == 0
}

// The bit of a mask at a place, which counts from 0.
fn bit(m: u32, place: u32) -> u32
    ensures { result ≡ m / 2 ^ place % 2 }
{
    if place < 32 {
        return (m >> place) % 2;
    }
    0
}

// Whether a row has a one in the column of h's first one.
fn meets(n: u32, h: Pauli, p: Pauli) -> bool
    ensures { result ≡ eqb (column n p (pivot n h)) 1 }
{
    if has_one(n, h.a) {
        return bit(p.a, first_one(n, h.a)) == 1;
    }
    if has_one(n, h.b) {
        return bit(p.b, first_one(n, h.b)) == 1;
    }
    false
}

// A row with its one in the column of h's first one taken away, by the product rule.
pub fn cleared(n: u32, h: Pauli, p: Pauli) -> Pauli
    ensures { result ≡ cleared n h p }
{
    if meets(n, h, p) {
        return p.product(h);
    }
    p
}

// The same Pauli with its phase 0 to 3.
pub fn modulo4(p: Pauli) -> Pauli
    ensures { result ≡ modulo4 p }
{
    Pauli {
        p: p.p % 4,
        a: p.a,
        b: p.b,
    }
}
