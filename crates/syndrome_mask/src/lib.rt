// The syndrome of a Pauli as a mask: which of the first rows of an array it anticommutes with.
#![tactic(auto)]

ghost use Rattle.std.specs.Prelude.{◌≡◌, take};
ghost use Rattle.pauli.specs.Syndrome.{syndrome_mask};

use code_record::ROW_ROOM;
use pauli::Pauli;

// A bit for each of the first rows, the first of them the lowest, 1 where p anticommutes with it. The bits are made
// from the last on, each doubling those behind it. It takes the rows and not their record, which would be copied whole.
pub fn syndrome_mask(rows: [Pauli; ROW_ROOM], count: usize, p: Pauli) -> u32
    ensures { result ≡ syndrome_mask (take count rows) p }
{
    let mut mask: u32 = 0;
    for place in (0..count.min(ROW_ROOM)).rev() {
        mask = 2 * mask + rows[place].symplectic(p);
    }
    mask
}
