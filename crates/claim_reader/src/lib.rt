// The line of w, which ends a sheet, and the record of all that was read.
#![tactic(auto)]

ghost use Rattle.std.specs.Prelude.{◌≡◌};
ghost use Rattle.sheet.specs.Reader.{answered};
ghost use Rattle.claim_reader.specs.Claim.{claim_after};

use code_record::{Code, LinesReading};
use row_reader::RowRead;
use rows_reader::{Logicals, Rows};

// The line of w, from the byte `from` on and on the line `at`, and the record with the rows that were read before it.
// Where there is no such byte, and where a sheet may not have n qubits, the line is off its form.
pub fn claim_after(
    s: &[u8],
    from: usize,
    n: usize,
    d: usize,
    at: usize,
    generators: Rows,
    logicals: Logicals,
) -> LinesReading
    ensures { result ≡ answered s.now (claim_after from n d at generators logicals s.now) }
{
    if s.len() < from {
        return LinesReading::off_form(at);
    }
    let Some(RowRead { used, row: w }) = row_reader::claim_line(&s[from..], n) else {
        return LinesReading::off_form(at);
    };
    // The check covers no array that a literal takes from a field, so each goes by a variable.
    let g = generators.rows;
    let x = logicals.x;
    let z = logicals.z;
    LinesReading {
        answer: Ok(from + used),
        claim_at: at,
        code: Code {
            n,
            r: generators.count,
            d,
            g,
            x,
            z,
            w,
        },
    }
}
