// Check 10 over the logicals of a record, the x rows and then the z rows: partners anticommute, and all others commute.
// The record goes by value, which copies it, so the rows are read in the loops themselves.
#![tactic(auto)]

ghost use Rattle.std.specs.Prelude.{◌≡◌};
ghost use Rattle.logical_pairs.specs.FirstPlace.{first_unpaired};

use code_record::{Code, ROW_ROOM, pair_count};

// The place of the first logical that pairs wrongly with an earlier one: it commutes with its partner, which stands as
// many places before it as there are pairs, or anticommutes with another. That behind the last where none does.
pub fn first_unpaired(code: Code) -> usize
    ensures { result ≡ first_unpaired code }
{
    let pairs = pair_count(code.n, code.r);
    // The x rows in the array, and as many z rows: one for each pair, or all places where there are more.
    let xs = pairs.min(ROW_ROOM);
    for place in 0..2 * xs {
        let p = if place < xs {
            code.x[place]
        } else {
            code.z[place - xs]
        };
        for earlier in 0..place {
            let q = if earlier < xs {
                code.x[earlier]
            } else {
                code.z[earlier - xs]
            };
            let partner = place - earlier == pairs;
            if p.commutes(q) == partner {
                return place;
            }
        }
    }
    2 * xs
}
