// The writer of letters, one for each byte that it is lent.
#![tactic(auto)]

ghost use Rattle.std.specs.Prelude.{◌≡◌, length};
ghost use Rattle.pauli.specs.Letters.{letter_text};

use pauli::Pauli;

// The letters of a Pauli from the first qubit on, as many as the buffer has bytes. Behind the 32 mask bits they are I.
pub fn fill_letters(p: Pauli, out: &mut [u8])
    ensures { out.new ≡ letter_text (length out.old) p }
{
    for (place, byte) in out.iter_mut().enumerate() {
        *byte = p.letter_on(place).byte();
    }
}
