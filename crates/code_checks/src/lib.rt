// The checks 6 to 14 of a record, each made where those before it passed. One elimination, of 6 to 8, gives the
// canonical generators for 13 and 14. The checks of any record hand them out, for what is said of one that passes; the
// checks of a record that was read do not, since that would copy them.
#![tactic(auto)]

ghost use Rattle.std.specs.Result.{result_err};
ghost use Rattle.std.specs.Prelude.{◌≡◌};
ghost use Rattle.refusals.specs.Refusals.{◌then◌};
ghost use Rattle.claim_checks.specs.Claim.{claim_fault};
ghost use Rattle.distance.specs.Search.{distance_by};
ghost use Rattle.code_checks.specs.Answers.{later_fault, read_fault, checked_code};

use claim_checks::check_claim;
use code_record::Code;
use distance::check_distance;
use elimination::{Elimination, eliminate_rows};
use logical_checks::check_logicals;
use record_limits::within_limits;
use reduced_rows::ReducedRows;
use refusals::Refusal;

// 11 to 13, then 14.
fn claim_and_distance(code: Code, reduced: ReducedRows, at: usize) -> Result<(), Refusal>
    ensures { result_err result ≡ (claim_fault at code reduced then distance_by at code reduced) }
{
    check_claim(code, reduced, at)?;
    check_distance(code, reduced, at)
}

// 9 and 10, then 11 to 14, with the rows that 6 to 8 gave. The checks of the logicals have 15 before them, where
// no sheet has so many qubits.
fn behind_generators(code: Code, reduced: ReducedRows, at: usize) -> Result<(), Refusal>
    ensures { result_err result ≡ later_fault at code reduced }
{
    check_logicals(code)?;
    claim_and_distance(code, reduced, at)
}

// The first fault of a record that was read, whose w stands on the line `at`: 15 where its generators are outside their
// limits, then 6 to 14. A reading gives no record outside its limits, so the others are not asked for once more.
pub fn check_read(code: Code, at: usize) -> Result<(), Refusal>
    ensures { result_err result ≡ read_fault at code }
{
    let rows = eliminate_rows(code.n, code.r, code.g);
    rows.answer?;
    behind_generators(code, rows.reduced, at)
}

// The same of any record: 15 where it is outside its limits, then 6 to 14. Beside the answer are the canonical
// generators where there is no fault, and none of them where there is one.
pub fn check_code(code: Code, at: usize) -> Elimination
    ensures { result ≡ checked_code at code }
{
    if !within_limits(code) {
        return Elimination::refused(Refusal::RecordLimits);
    }
    let generators = eliminate_rows(code.n, code.r, code.g);
    // The answers are taken apart here, and not by `?`: a refusal has rows beside it too, none of them.
    let Ok(()) = generators.answer else {
        return generators;
    };
    if let Err(refusal) = behind_generators(code, generators.reduced, at) {
        return Elimination::refused(refusal);
    }
    generators
}
