// Check 14: whether a logical error is lighter than the claimed distance, with the canonical generators that were found
// before.
#![tactic(auto)]

ghost use Rattle.std.specs.Result.{result_err};
ghost use Rattle.std.specs.Prelude.{◌≡◌};
ghost use Rattle.distance.specs.Search.{distance_by};

use code_record::Code;
use logical_words::logical_words;
use reduced_rows::ReducedRows;
use refusals::Refusal;
use refuting_pair::refuting_pair;
use search::earliest;

// The refusal of a code's distance, which names the line of w, `at`: the earliest logical error that is lighter than d
// gives its two errors.
pub fn check_distance(code: Code, reduced: ReducedRows, at: usize) -> Result<(), Refusal>
    ensures { result_err result ≡ distance_by at code reduced }
{
    let words = logical_words(code, reduced);
    match earliest(&words, code.d.saturating_sub(1), 0, 0) {
        Some(masks) => {
            Err(Refusal::DistanceRefuted(at, refuting_pair(code.n, masks.a, masks.b)))
        }
        None => Ok(()),
    }
}
