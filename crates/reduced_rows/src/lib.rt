// Rows in reduced echelon form: what they leave of a row, and what the row is to them.
#![tactic(auto)]

ghost use Rattle.std.specs.Prelude.{[], ◌≡◌};
ghost use Rattle.stabilizer.specs.Canonical.{reduced, reduces_to_identity};
ghost use Rattle.reduced_rows.specs.RowKinds.{kind_of};
ghost use Rattle.reduced_rows.specs.Rows.{rows_in, reduced_of};

use code_record::ROW_ROOM;
use columns::{cleared, is_phase};
use pauli::Pauli;

// Rows of n qubits in reduced echelon form, the first `count` of the array; the others are +I.
#[derive(Clone, Copy)]
pub struct ReducedRows {
    pub n: u32,
    pub count: usize,
    pub rows: [Pauli; ROW_ROOM],
}

// What a row is to other rows: independent of them, or I with a sign once multiplied by a selection of them.
#[derive(Clone, Copy)]
pub enum Kind {
    Independent,
    PlusIdentity,
    MinusIdentity,
}

impl ReducedRows {
    // No row of n qubits yet.
    pub fn empty(n: u32) -> ReducedRows
        ensures { result ≡ reduced_of n [] }
    {
        ReducedRows {
            n,
            count: 0,
            rows: [Pauli::identity(); ROW_ROOM],
        }
    }

    // What the rows leave of a row.
    pub fn reduce(self, p: Pauli) -> Pauli
        ensures { result ≡ reduced self.n (rows_in self) p }
    {
        let mut left = p;
        for place in 0..self.count.min(ROW_ROOM) {
            left = cleared(self.n, self.rows[place], left);
        }
        left
    }

    // Whether they leave nothing of it but a phase.
    pub fn contains(self, p: Pauli) -> bool
        ensures { result ≡ reduces_to_identity self.n (rows_in self) p }
    {
        is_phase(self.reduce(p))
    }
}

// What a row is to the rows, from what they leave of it.
pub fn kind_of(left: Pauli) -> Kind
    ensures { result ≡ kind_of left }
{
    if !is_phase(left) {
        return Kind::Independent;
    }
    if left.p % 4 == 2 {
        return Kind::MinusIdentity;
    }
    Kind::PlusIdentity
}
