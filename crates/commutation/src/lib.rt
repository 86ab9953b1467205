// Check 6 over the generators of a record, which are compared two by two: each has to commute with those before it.
#![tactic(auto)]

ghost use Rattle.std.specs.Result.{result_err};
ghost use Rattle.std.specs.Prelude.{[], ◌≡◌, take};
ghost use Rattle.code_record.specs.Record.{first_generator_at};
ghost use Rattle.stabilizer.specs.Checks.{first_fault, clash};

use code_record::{FIRST_GENERATOR_AT, ROW_ROOM};
use pauli::Pauli;
use refusals::{Family, Refusal};

// Whether the first r rows commute, which are a record's generators: 6 at the first that anticommutes with an earlier
// one. Where r is above the room for rows, all places are tried. Both loops stand here, and the rows go alone, since
// what is handed to a call is copied.
pub fn generators_commute(r: usize, g: [Pauli; ROW_ROOM]) -> Result<(), Refusal>
    ensures { result_err result ≡ first_fault clash [] first_generator_at (take r g) }
{
    for place in 0..r.min(ROW_ROOM) {
        let p = g[place];
        for earlier in 0..place {
            if !p.commutes(g[earlier]) {
                return Err(Refusal::GeneratorsAnticommute(
                    FIRST_GENERATOR_AT + place,
                    Family::Generator,
                ));
            }
        }
    }
    Ok(())
}
