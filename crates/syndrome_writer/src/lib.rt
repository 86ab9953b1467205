// The writer of a syndrome: a character 0 or 1 for each generator of a record.
#![tactic(auto)]

ghost use Rattle.std.specs.Prelude.{◌≡◌, ◌≤◌, length, take};
ghost use Rattle.pauli.specs.Product.{anticommutes};
ghost use Rattle.pauli.specs.Syndrome.{syndrome};
ghost use Rattle.code_record.specs.Record.{row_room};
ghost use Rattle.sheet.specs.Text.{laid};
ghost use Rattle.decoder.specs.Syndrome.{bit_byte, syndrome_text, write_syndrome};
ghost use Rattle.syndrome_writer.specs.Characters.{characters_written};

use code_record::{Code, ROW_ROOM};
use pauli::Pauli;
use refusals::Refusal;

// The character of one generator: 1 where the Pauli anticommutes with it.
fn character(generator: Pauli, p: Pauli) -> u8
    ensures { result ≡ bit_byte (anticommutes generator p) }
{
    if generator.commutes(p) { b'0' } else { b'1' }
}

// The characters of all generators, in their order. Their rows are all that is copied of the record.
fn characters(r: usize, g: [Pauli; ROW_ROOM], p: Pauli, out: &mut [u8])
    requires r_le_row_room { r ≤ row_room }
    requires r_in_bounds { r ≤ length out.old }
    ensures { out.new ≡ laid (syndrome_text (syndrome (take r g) p)) out.old }
{
    for place in 0..r {
        out[place] = character(g[place], p);
    }
}

// The syndrome of a Pauli, into an output buffer: 15 where the record is outside its limits, then 17 where the buffer
// is shorter than r, then a character for each generator. The bytes behind them stay, and a refusal leaves the whole
// buffer. The count of characters is answered too: a caller that read r beside the call would copy the record for it.
pub fn write_characters(code: Code, p: Pauli, out: &mut [u8]) -> Result<usize, Refusal>
    ensures value { result ≡ characters_written code.r (write_syndrome code p out.old).answer }
    ensures out_after { out.new ≡ (write_syndrome code p out.old).buffer }
{
    if !record_limits::within_limits(code) {
        return Err(Refusal::RecordLimits);
    }
    if out.len() < code.r {
        return Err(Refusal::ShortBuffer);
    }
    let g = code.g;
    characters(code.r, g, p, out);
    Ok(code.r)
}

// The same, without the count.
pub fn write_syndrome(code: Code, p: Pauli, out: &mut [u8]) -> Result<(), Refusal>
    ensures value { result ≡ (write_syndrome code p out.old).answer }
    ensures out_after { out.new ≡ (write_syndrome code p out.old).buffer }
{
    write_characters(code, p, out)?;
    Ok(())
}
