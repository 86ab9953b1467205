// The decode call: characters of a syndrome in, letters of its correction out.
#![tactic(auto)]

ghost use Rattle.std.specs.Prelude.{◌≡◌};
ghost use Rattle.decoder.specs.Correction.{decode};
ghost use Rattle.decoding.specs.Letters.{letters_decoded};

use code_record::Code;
use corrections::correct;
use decoder::Decoded;
use letters_writer::fill_letters;
use record_limits::within_limits;
use refusals::Refusal;
use syndrome_reader::read_syndrome;

// The correction for a syndrome that is given as characters, into an output buffer: 15 where the record is outside its
// limits, then 16 where the characters are no syndrome of it, then 17 where the buffer is shorter than n. Then the
// letters of the correction, and the bytes behind them stay; or `none`. That and a refusal leave the whole buffer. The
// count of letters is answered too: a caller that read n beside the call would copy the record for it.
pub fn decode_letters(
    code: Code,
    characters: &[u8],
    out: &mut [u8],
) -> Result<Option<usize>, Refusal>
    ensures value { result ≡ letters_decoded code.n (decode code characters.now out.old).answer }
    ensures out_after { out.new ≡ (decode code characters.now out.old).buffer }
{
    if !within_limits(code) {
        return Err(Refusal::RecordLimits);
    }
    let syndrome = read_syndrome(code.r, characters).ok_or(Refusal::Syndrome(0))?;
    if out.len() < code.n {
        return Err(Refusal::ShortBuffer);
    }
    let Some(p) = correct(code, syndrome) else {
        return Ok(None);
    };
    fill_letters(p, &mut out[..code.n]);
    Ok(Some(code.n))
}

// The same, without the count.
pub fn decode(code: Code, characters: &[u8], out: &mut [u8]) -> Result<Decoded, Refusal>
    ensures value { result ≡ (decode code characters.now out.old).answer }
    ensures out_after { out.new ≡ (decode code characters.now out.old).buffer }
{
    match decode_letters(code, characters, out)? {
        Some(_) => Ok(Decoded::Correction),
        None => Ok(Decoded::None),
    }
}
