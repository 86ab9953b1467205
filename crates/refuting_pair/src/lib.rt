// The two errors of refusal 14, from the masks of the logical error that refutes a claimed distance.
#![tactic(auto)]

ghost use Rattle.std.specs.Prelude.{◌≡◌};
ghost use Rattle.pauli.specs.Letters.{letters_at};
ghost use Rattle.admission.specs.Distance.{refuting_pair};
ghost use Rattle.refuting_pair.specs.LowestOnes.{without_lowest};

use letters::Sign;
use pauli::Pauli;
use refusals::ErrorPair;

// A mask without so many of its lowest ones.
fn without_lowest(mask: u32, count: u32) -> u32
    ensures { result ≡ without_lowest count mask }
{
    let mut kept = mask;
    for _ in 0..count {
        kept &= kept.saturating_sub(1);
    }
    kept
}

// E has the first half of the error's letters, rounded up, and F the others. n is the number of qubits that the pair
// says.
pub fn refuting_pair(n: usize, a: u32, b: u32) -> ErrorPair
    ensures { result ≡ refuting_pair n (letters_at 32 a b) }
{
    let kept = without_lowest(a | b, (a | b).count_ones().div_ceil(2));
    ErrorPair {
        n,
        e: Pauli::signed(Sign::Plus, a ^ (a & kept), b ^ (b & kept)),
        f: Pauli::signed(Sign::Plus, a & kept, b & kept),
    }
}
