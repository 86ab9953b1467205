// The writer of a text that is given: the bytes that stand in every line of a kind, such as its key.
#![tactic(auto)]

ghost use Rattle.std.specs.Prelude.{◌≡◌};
ghost use Rattle.sheet.specs.Text.{written};

use refusals::Refusal;

// A text by itself, into an output buffer: 17 where the buffer is shorter than the text, then the text's bytes and
// their count.
pub fn write_text(text: &[u8], out: &mut [u8]) -> Result<usize, Refusal>
    ensures value { result ≡ (written None text.now out.old).answer }
    ensures out_after { out.new ≡ (written None text.now out.old).buffer }
{
    if out.len() < text.len() {
        return Err(Refusal::ShortBuffer);
    }
    for place in 0..text.len() {
        out[place] = text[place];
    }
    Ok(text.len())
}
