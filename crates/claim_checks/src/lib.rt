// Checks 11 to 13: a record's claimed logical w, with the canonical generators that were found before.
#![tactic(auto)]

ghost use Rattle.std.specs.Result.{result_err};
ghost use Rattle.std.specs.Prelude.{◌≡◌};
ghost use Rattle.claim_checks.specs.Claim.{claim_fault};

use code_record::Code;
use reduced_rows::ReducedRows;
use refusals::Refusal;
use syndrome_mask::syndrome_mask;

// The first fault of w, which stands on the line `at`: its weight is not d, it anticommutes with a generator, or the
// reduced rows contain it.
pub fn check_claim(code: Code, reduced: ReducedRows, at: usize) -> Result<(), Refusal>
    ensures { result_err result ≡ claim_fault at code reduced }
{
    if code.w.weight() as usize != code.d {
        return Err(Refusal::ClaimedWeight(at));
    }
    if syndrome_mask(code.g, code.r, code.w) != 0 {
        return Err(Refusal::ClaimedAnticommutes(at));
    }
    if reduced.contains(code.w) {
        return Err(Refusal::ClaimedInGroup(at));
    }
    Ok(())
}
