// The checks of a record's logicals: 9, then 10 (`logical_pairs`). The record goes by value, which copies it, so a
// check reads the rows in loops of its own, which call nothing that takes the record.
#![tactic(auto)]

ghost use Rattle.std.specs.Result.{result_err};
ghost use Rattle.std.specs.Prelude.{◌≡◌, ◌≤◌};
ghost use Rattle.code_record.specs.Record.{most_qubits, qubit_fault};
ghost use Rattle.refusals.specs.Refusals.{◌then◌};
ghost use Rattle.refusals.specs.declared.Refusal.TheVariants.{LogicalAnticommutes};
ghost use Rattle.admission.specs.Logicals.{family_at, detected_fault, pairing_fault};
ghost use Rattle.logical_pairs.specs.FaultAt.{fault_at};

use code_record::{Code, check_qubits, pair_count};
use logical_pairs::first_unpaired;
use refusals::{Family, Refusal};

// The family of the logical at a place, which counts from 0: the x rows come first.
fn family_at(pairs: usize, place: usize) -> Family
    ensures { result ≡ family_at pairs place }
{
    if place < pairs {
        return Family::LogicalX;
    }
    Family::LogicalZ
}

// The place of the first logical that anticommutes with a generator; that behind the last logical where all commute.
fn first_detected(code: Code) -> usize
    requires { code.n ≤ most_qubits }
    ensures { fault_at LogicalAnticommutes code result ≡ detected_fault code }
{
    let pairs = pair_count(code.n, code.r);
    for place in 0..2 * pairs {
        let p = if place < pairs {
            code.x[place]
        } else {
            code.z[place - pairs]
        };
        for row in 0..code.r {
            if !p.commutes(code.g[row]) {
                return place;
            }
        }
    }
    2 * pairs
}

// The checks of the logicals: 15 where no sheet has so many qubits, since their lines are counted; then 9 over all
// logicals, then 10. The other limits are not asked for.
pub fn check_logicals(code: Code) -> Result<(), Refusal>
    ensures { result_err result ≡ (qubit_fault code.n then detected_fault code then pairing_fault code) }
{
    check_qubits(code.n)?;
    let pairs = pair_count(code.n, code.r);
    let detected = first_detected(code);
    if detected < 2 * pairs {
        return Err(Refusal::LogicalAnticommutes(
            code.generators_at() + code.r + detected,
            family_at(pairs, detected),
        ));
    }
    let unpaired = first_unpaired(code);
    if unpaired < 2 * pairs {
        return Err(Refusal::LogicalPairing(
            code.generators_at() + code.r + unpaired,
            family_at(pairs, unpaired),
        ));
    }
    Ok(())
}
