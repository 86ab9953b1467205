// Elimination: rows are added one by one to rows in reduced echelon form, as long as they are independent.
#![tactic(auto)]

ghost use Rattle.std.specs.Prelude.{[], ◌≡◌, take};
ghost use Rattle.reduced_rows.specs.Rows.{reduced_of};
ghost use Rattle.independent_rows.specs.Rows.{independent_rows};

use code_record::ROW_ROOM;
use columns::{cleared, is_phase, modulo4, pivot};
use pauli::Pauli;
use reduced_rows::ReducedRows;

// The first rows in reduced echelon form, up to the one of which those before it leave nothing but a phase. All loops
// stand here and work on one array, since a value with an array is copied where it is handed to a call.
pub fn independent_rows(n: u32, rows: [Pauli; ROW_ROOM], count: usize) -> ReducedRows
    ensures { result ≡ reduced_of n (independent_rows n [] (take count rows)) }
{
    // The rows stand by themselves until they are given back: in a struct they would be copied once more.
    let mut reduced = [Pauli::identity(); ROW_ROOM];
    let used = count.min(ROW_ROOM);
    for place in 0..used {
        // What the rows so far leave of the next one.
        let mut left = rows[place];
        for at in 0..place {
            left = cleared(n, reduced[at], left);
        }
        if is_phase(left) {
            return ReducedRows {
                n,
                count: place,
                rows: reduced,
            };
        }
        // They are cleared by it.
        left = modulo4(left);
        for at in 0..place {
            reduced[at] = cleared(n, left, reduced[at]);
        }
        // It is put in its place: those whose first ones come behind its own move up, the last one first. The loop is a
        // `while`: it ends at the first that stays, and where it ended is the place.
        let first = pivot(n, left);
        let mut at = place;
        while at > 0 {
            let last = reduced[at - 1];
            if pivot(n, last) <= first {
                break;
            }
            reduced[at] = last;
            at -= 1;
        }
        reduced[at] = left;
    }
    ReducedRows {
        n,
        count: used,
        rows: reduced,
    }
}
