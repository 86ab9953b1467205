// Elimination on the generators of a record: they become rows in reduced echelon form, up to the first that depends on
// those before it. 7 and 8 and the canonical generators follow from it; 15 and 6 come before them.
#![tactic(auto)]

ghost use Rattle.std.specs.Result.{result_err};
ghost use Rattle.std.specs.Prelude.{true, [], ◌≡◌, take};
ghost use Rattle.code_record.specs.Record.{first_generator_at};
ghost use Rattle.record_limits.specs.Generators.{generators_within};
ghost use Rattle.stabilizer.specs.Canonical.{canonical_generators};
ghost use Rattle.stabilizer.specs.Checks.{first_fault, clash, dependence};
ghost use Rattle.reduced_rows.specs.Rows.{reduced_of};
ghost use Rattle.independent_rows.specs.Rows.{independent_rows};
ghost use Rattle.elimination.specs.Answers.{eliminated, independence, rows_elimination, elimination};

use code_record::{Code, FIRST_GENERATOR_AT, ROW_ROOM};
use commutation::generators_commute;
use independent_rows::independent_rows;
use pauli::Pauli;
use record_limits::{generators_within, within_limits};
use reduced_rows::{Kind, ReducedRows, kind_of};
use refusals::{Family, Refusal};

// The answer of the checks, and beside it the canonical generators; none of them where it is a refusal. The two stand
// side by side, and the generators are not in the answer's `Ok`: that none of them stand beside a refusal is promised.
#[derive(Clone, Copy)]
pub struct Elimination {
    pub answer: Result<(), Refusal>,
    pub reduced: ReducedRows,
}

impl Elimination {
    // Beside a refusal there are no canonical generators.
    pub fn refused(refusal: Refusal) -> Elimination
        ensures { result ≡ eliminated (Some refusal) 0 [] }
    {
        Elimination {
            answer: Err(refusal),
            reduced: ReducedRows::empty(0),
        }
    }
}

// 7 and 8, over rows within limits that pass 6, by what their elimination gave: where not all of them are independent,
// the first that is not decides. Where they are, what it gave are the canonical generators.
fn dependence_of(r: usize, g: [Pauli; ROW_ROOM], reduced: ReducedRows) -> Result<(), Refusal>
    requires g_value { generators_within reduced.n r g ≡ true }
    requires g_value_2 { first_fault clash [] first_generator_at (take r g) ≡ None }
    requires reduced_value { reduced ≡ reduced_of reduced.n (independent_rows reduced.n [] (take r g)) }
    ensures result_value { result_err result ≡ first_fault dependence [] first_generator_at (take r g) }
    ensures reduced_value_2 { result ≡ Ok tt
        → reduced ≡ reduced_of reduced.n (canonical_generators reduced.n (take r g)) }
{
    let place = reduced.count;
    if place == r {
        return Ok(());
    }
    let line = FIRST_GENERATOR_AT + place;
    let p = g[place];
    match kind_of(reduced.reduce(p)) {
        Kind::MinusIdentity => Err(Refusal::MinusIdentity(line, Family::Generator)),
        _ => Err(Refusal::DependentGenerator(line, Family::Generator)),
    }
}

// The same, with the canonical generators. They are taken away where there is a refusal, and not made anew where there
// is none, which would copy them.
fn independence(n: usize, r: usize, g: [Pauli; ROW_ROOM]) -> Elimination
    requires g_value { generators_within n r g ≡ true }
    requires g_value_2 { first_fault clash [] first_generator_at (take r g) ≡ None }
    ensures { result ≡ independence n (take r g) }
{
    let mut reduced = independent_rows(n as u32, g, r);
    let answer = dependence_of(r, g, reduced);
    if answer.is_err() {
        reduced = ReducedRows::empty(0);
    }
    Elimination { answer, reduced }
}

// The checks of the generators of a record, and the canonical generators: 15 where n, r or the first r rows are outside
// their limits, then 6 to 8.
pub fn eliminate_rows(n: usize, r: usize, g: [Pauli; ROW_ROOM]) -> Elimination
    ensures { result ≡ rows_elimination n r g }
{
    if !generators_within(n, r, g) {
        return Elimination::refused(Refusal::RecordLimits);
    }
    if let Err(refusal) = generators_commute(r, g) {
        return Elimination::refused(refusal);
    }
    independence(n, r, g)
}

// The same of a record: 15 where it is outside any of its limits.
pub fn eliminate(code: Code) -> Elimination
    ensures { result ≡ elimination code }
{
    if !within_limits(code) {
        return Elimination::refused(Refusal::RecordLimits);
    }
    eliminate_rows(code.n, code.r, code.g)
}
