// Whether rows are +I, as those of a record are that it does not use.
#![tactic(auto)]

ghost use Rattle.std.specs.Prelude.{◌&&◌, ◌≡◌};
ghost use Rattle.pauli.specs.Product.{identity, same_pauli};
ghost use Rattle.unused_rows.specs.Unused.{are_identities, all_bits};

use code_record::ROW_ROOM;
use pauli::Pauli;

// Whether a Pauli is +I.
fn is_identity(p: Pauli) -> bool
    ensures { result ≡ same_pauli identity p }
{
    p.p % 4 == 0 && p.a == 0 && p.b == 0
}

// All bits of the rows' phases and masks, joined. A loop of this many turns without a test is compiled to join several
// words at once.
fn all_bits(rows: [Pauli; ROW_ROOM]) -> u32
    ensures { result ≡ all_bits rows }
{
    let mut bits: u32 = 0;
    for place in (0..ROW_ROOM).rev() {
        let p = rows[place];
        bits = bits | p.p | p.a | p.b;
    }
    bits
}

// Whether all rows are +I.
fn are_identities(rows: [Pauli; ROW_ROOM]) -> bool
    ensures { result ≡ are_identities rows }
{
    rows.iter().all(|p| is_identity(*p))
}

// Whether all rows of three families are +I. Rows without a bit are, and that is told first, since it is quick. A phase
// of 4 is +I too, so where there are bits the rows are tested one by one.
pub fn are_unused(g: [Pauli; ROW_ROOM], x: [Pauli; ROW_ROOM], z: [Pauli; ROW_ROOM]) -> bool
    ensures { result ≡ (are_identities g && are_identities x && are_identities z) }
{
    (all_bits(g) | all_bits(x)) | all_bits(z) == 0
        || are_identities(g) && are_identities(x) && are_identities(z)
}
