// The canonical generators of a record as text: an `h=` line for each.
#![tactic(auto)]

ghost use Rattle.std.specs.Prelude.{◌≡◌};
ghost use Rattle.stabilizer.specs.Canonical.{write_canonical};

use code_record::Code;
use elimination::eliminate_rows;
use record_limits::within_limits;
use refusals::Refusal;

// The canonical generators of a record, into an output buffer: 15 where the record is outside its limits, then 6 to 8
// with the lines of its written sheet, then 17 where the buffer is shorter than their lines, then the lines' bytes and
// their count. The bytes behind them stay, and a refusal leaves the whole buffer. The limits are asked for here, where
// the record is at hand: the call that eliminates takes the rows alone.
pub fn write_canonical(code: Code, out: &mut [u8]) -> Result<usize, Refusal>
    ensures value { result ≡ (write_canonical code out.old).answer }
    ensures out_after { out.new ≡ (write_canonical code out.old).buffer }
{
    if !within_limits(code) {
        return Err(Refusal::RecordLimits);
    }
    let e = eliminate_rows(code.n, code.r, code.g);
    e.answer?;
    rows_writer::write_rows(b'h', code.n, e.reduced.count, e.reduced.rows, out)
}
