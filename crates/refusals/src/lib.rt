// The refusals with what each says, and the families of rows that they name.
#![tactic(auto)]

ghost use Rattle.std.specs.Prelude.{◌≡◌};
ghost use Rattle.refusals.specs.Families.{key_byte};
ghost use Rattle.refusals.specs.Refusals.{plain, of_row, values, answered_values, count_of};

use pauli::Pauli;

// The three kinds of rows, each with its array in the record and its key in the sheet. A refusal about a row names its
// kind.
#[derive(Clone, Copy, PartialEq, Eq)]
pub enum Family {
    Generator,
    LogicalX,
    LogicalZ,
}

impl Family {
    // The byte with which the key of its lines begins.
    pub fn key(self) -> u8
        ensures { result ≡ key_byte self }
    {
        match self {
            Family::Generator => b'g',
            Family::LogicalX => b'x',
            Family::LogicalZ => b'z',
        }
    }
}

// The two errors that refute a claimed distance, on n qubits.
#[repr(C)]
#[derive(Clone, Copy)]
pub struct ErrorPair {
    pub n: usize,
    pub e: Pauli,
    pub f: Pauli,
}

// The refusals in the order of their numbers, 1 to 17. A case that names a line of the sheet holds it, and one about a
// row its family too.
#[derive(Clone, Copy)]
pub enum Refusal {
    // 1: the whole input has more than 4,096 bytes.
    TooLong,
    // 2: a line fails its form.
    Form(usize),
    // 3: n is not 2 to 24.
    QubitCount(usize),
    // 4: d is not 1 to 7.
    DistanceRange(usize),
    // 5: no generator, or one too many.
    GeneratorCount(usize),
    // 6: a generator anticommutes with an earlier one.
    GeneratorsAnticommute(usize, Family),
    // 7: a generator times a selection of earlier ones is -I.
    MinusIdentity(usize, Family),
    // 8: the same product is +I.
    DependentGenerator(usize, Family),
    // 9: a logical operator anticommutes with a generator.
    LogicalAnticommutes(usize, Family),
    // 10: two logical operators do not pair.
    LogicalPairing(usize, Family),
    // 11: the weight of w is not d.
    ClaimedWeight(usize),
    // 12: w anticommutes with a generator.
    ClaimedAnticommutes(usize),
    // 13: w is in the group, phase aside.
    ClaimedInGroup(usize),
    // 14: there is a logical error of weight below d.
    DistanceRefuted(usize, ErrorPair),
    // 15: a record is outside its limits.
    RecordLimits,
    // 16: a syndrome is off its form; line 0 where it stands alone.
    Syndrome(usize),
    // 17: an output buffer is shorter than the answer.
    ShortBuffer,
}

impl Refusal {
    // What it says, case by case.
    pub fn values(self) -> RefusalValues
        ensures { result ≡ answered_values (values self) }
    {
        match self {
            Refusal::TooLong => RefusalValues::plain(1, 0),
            Refusal::Form(line) => RefusalValues::plain(2, line),
            Refusal::QubitCount(line) => RefusalValues::plain(3, line),
            Refusal::DistanceRange(line) => RefusalValues::plain(4, line),
            Refusal::GeneratorCount(line) => RefusalValues::plain(5, line),
            Refusal::GeneratorsAnticommute(line, family) => RefusalValues::of_row(6, line, family),
            Refusal::MinusIdentity(line, family) => RefusalValues::of_row(7, line, family),
            Refusal::DependentGenerator(line, family) => RefusalValues::of_row(8, line, family),
            Refusal::LogicalAnticommutes(line, family) => RefusalValues::of_row(9, line, family),
            Refusal::LogicalPairing(line, family) => RefusalValues::of_row(10, line, family),
            Refusal::ClaimedWeight(line) => RefusalValues::plain(11, line),
            Refusal::ClaimedAnticommutes(line) => RefusalValues::plain(12, line),
            Refusal::ClaimedInGroup(line) => RefusalValues::plain(13, line),
            Refusal::DistanceRefuted(line, _) => RefusalValues::plain(14, line),
            Refusal::RecordLimits => RefusalValues::plain(15, 0),
            Refusal::Syndrome(line) => RefusalValues::plain(16, line),
            Refusal::ShortBuffer => RefusalValues::plain(17, 0),
        }
    }
}

// What a refusal says: its number, the line named, 0 for none, and the kind of its row, where it is about one.
#[derive(Clone, Copy)]
pub struct RefusalValues {
    pub number: u32,
    pub line: usize,
    pub family: Option<Family>,
}

impl RefusalValues {
    // Of a refusal that is about no row.
    fn plain(number: u32, line: usize) -> RefusalValues
        ensures { result ≡ answered_values (plain number line) }
    {
        RefusalValues {
            number,
            line,
            family: None,
        }
    }

    // Of one about a row of a family.
    fn of_row(number: u32, line: usize, family: Family) -> RefusalValues
        ensures { result ≡ answered_values (of_row number line family) }
    {
        RefusalValues {
            number,
            line,
            family: Some(family),
        }
    }
}

// How many bytes a call wrote, of its answer: none where it refused. So a caller finds where the next line begins.
pub fn bytes_written(written: Result<usize, Refusal>) -> usize
    ensures { result ≡ count_of written }
{
    written.unwrap_or(0)
}
