// The decode call by value: a syndrome as a mask in, its correction as a Pauli out.
#![tactic(auto)]

ghost use Rattle.std.specs.Prelude.{◌≡◌};
ghost use Rattle.mask_decoding.specs.Masks.{decode_mask};

use code_record::Code;
use corrections::correct;
use pauli::Pauli;
use record_limits::within_limits;
use refusals::Refusal;

// The correction for a syndrome that is given as a mask, the first generator's bit the lowest: 15 where the record is
// outside its limits, then 16 where the mask has a bit above the last generator's.
pub fn decode_mask(code: Code, syndrome: u32) -> Result<Option<Pauli>, Refusal>
    ensures { result ≡ decode_mask code syndrome }
{
    if !within_limits(code) {
        return Err(Refusal::RecordLimits);
    }
    if syndrome >> code.r != 0 {
        return Err(Refusal::Syndrome(0));
    }
    Ok(correct(code, syndrome))
}
