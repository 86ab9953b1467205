// The record of a code, its sizes, and the answer of the calls that read it.
#![tactic(auto)]

ghost use Rattle.std.specs.Prelude.{◌≡◌, get_or};
ghost use Rattle.std.specs.Result.{result_err};
ghost use Rattle.pauli.specs.Product.{identity};
ghost use Rattle.refusals.specs.declared.Refusal.TheVariants.{Form};
ghost use Rattle.code_record.specs.Record.{pair_count, most_generators, generators_at};
ghost use Rattle.code_record.specs.Record.{qubit_fault, rows_of, empty_code, empty_beside};

use pauli::Pauli;
use refusals::{Family, Refusal};

// How many rows of each family a record has room for.
pub const ROW_ROOM: usize = 32;

// The most qubits of a code.
pub const MOST_QUBITS: usize = 24;

// The longest distance that may be claimed.
pub const MOST_DISTANCE: usize = 7;

// The most bytes of an input, a sheet and what stands behind it.
pub const LONGEST_INPUT: usize = 4096;

// The most bytes of a sheet.
pub const LONGEST_SHEET: usize = 1352;

// The line of a sheet on which the first generator stands.
pub const FIRST_GENERATOR_AT: usize = 3;

// How many pairs of logicals a code of n qubits and r generators has.
pub fn pair_count(n: usize, r: usize) -> usize
    ensures { result ≡ pair_count n r }
{
    n.saturating_sub(r)
}

// The most generators that are read of a code of n qubits.
pub fn most_generators(n: usize) -> usize
    ensures { result ≡ most_generators n }
{
    n.saturating_sub(1)
}

// 15 where no sheet has so many qubits.
pub fn check_qubits(n: usize) -> Result<(), Refusal>
    ensures { result_err result ≡ qubit_fault n }
{
    if (2..=MOST_QUBITS).contains(&n) {
        Ok(())
    } else {
        Err(Refusal::RecordLimits)
    }
}

// The code that a sheet describes: n qubits, r generators, claimed distance d. The first r rows of g are the
// generators, the first rows of x and of z the pairs of logical operators, and w is the claimed minimum-weight logical.
// Unused rows are +I.
#[repr(C)]
#[derive(Clone, Copy)]
pub struct Code {
    pub n: usize,
    pub r: usize,
    pub d: usize,
    pub g: [Pauli; ROW_ROOM],
    pub x: [Pauli; ROW_ROOM],
    pub z: [Pauli; ROW_ROOM],
    pub w: Pauli,
}

impl Code {
    // All numbers 0 and all rows +I.
    pub fn empty() -> Code
        ensures { result ≡ empty_code }
    {
        let one = Pauli::identity();
        Code {
            n: 0,
            r: 0,
            d: 0,
            g: [one; ROW_ROOM],
            x: [one; ROW_ROOM],
            z: [one; ROW_ROOM],
            w: one,
        }
    }

    // The row of a family at a place, which counts from 0; +I behind the array's end.
    pub fn row(self, family: Family, place: usize) -> Pauli
        ensures { result ≡ get_or (rows_of family self) place identity }
    {
        if ROW_ROOM <= place {
            return Pauli::identity();
        }
        match family {
            Family::Generator => self.g[place],
            Family::LogicalX => self.x[place],
            Family::LogicalZ => self.z[place],
        }
    }

    // The line of its first generator in its written sheet.
    pub fn generators_at(self) -> usize
        ensures { result ≡ generators_at self }
    {
        FIRST_GENERATOR_AT
    }
}

// How many bytes the lines of a sheet took, or their refusal. The record stands beside the answer: all numbers 0 and
// all rows +I where it is a refusal. `claim_at` is the line that w stands on, 0 where it is a refusal.
// The empty record is promised, with edits that lose it: so the two stand side by side, and in no `Result<Code, _>`.
#[derive(Clone, Copy)]
pub struct LinesReading {
    pub answer: Result<usize, Refusal>,
    pub claim_at: usize,
    pub code: Code,
}

impl LinesReading {
    // A refused reading: the empty record stands beside the refusal.
    pub fn refused(answer: Result<usize, Refusal>) -> LinesReading
        ensures { result ≡ empty_beside answer }
    {
        LinesReading {
            answer,
            claim_at: 0,
            code: Code::empty(),
        }
    }

    // A reading that ends at a line off its form.
    pub fn off_form(at: usize) -> LinesReading
        ensures { result ≡ empty_beside (Err (Form at)) }
    {
        LinesReading::refused(Err(Refusal::Form(at)))
    }
}
