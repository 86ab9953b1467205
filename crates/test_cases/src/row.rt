// Changes of a row, for a record that no sheet has.
ghost use Rattle.std.specs.Prelude.{◌≡◌, ◌%◌, ◌^◌};
ghost use Rattle.test_cases.specs.Rows.{turned_row, with_bits};

use pauli::Pauli;

// The row with i to the power of so many more. The remainder keeps the sum within 32 bits, and from 0xFFFF_FFFD on it
// is another power.
pub fn turned(row: Pauli, more: u32) -> Pauli
    ensures { result ≡ turned_row row more }
{
    Pauli {
        p: row.p % 4 + more % 0xFFFF_FFFD,
        ..row
    }
}

// The row with these bits in its masks as well.
pub fn with_bits(row: Pauli, a: u32, b: u32) -> Pauli
    ensures { result ≡ with_bits row a b }
{
    Pauli {
        a: row.a | a,
        b: row.b | b,
        ..row
    }
}

// The mask with the bit behind that of qubit n; for n from 32 on, of qubit n % 32.
pub fn above(n: usize) -> u32
    ensures { result ≡ 2 ^ (n % 32) }
{
    1 << (n % 32)
}
