// The writer of one correction's line in a report.
#![tactic(auto)]

ghost use Rattle.std.specs.Prelude.{◌≡◌};
ghost use Rattle.correction_writer.specs.Lines.{write_correction};

use pauli::Pauli;
use refusals::Refusal;

// The line of a correction on n qubits, into an output buffer: `c=` with its letters, as `write_letters` has it, 15 and
// 17 among them; or the line that says that there is none, and 17 where it has no room.
pub fn write_correction(
    n: usize,
    correction: Option<Pauli>,
    out: &mut [u8],
) -> Result<usize, Refusal>
    ensures value { result ≡ (write_correction n correction out.old).answer }
    ensures out_after { out.new ≡ (write_correction n correction out.old).buffer }
{
    match correction {
        Some(p) => row_writer::write_letters(b'c', n, p, out),
        None => text_writer::write_text(b"c=none\n", out),
    }
}
