// Corrections by value: the earliest error of weight at most t with a syndrome, which is given as a mask.
#![tactic(auto)]

ghost use Rattle.std.specs.Prelude.{◌≡◌};
ghost use Rattle.code_record.specs.Record.{radius};
ghost use Rattle.corrections.specs.Corrections.{of_masks, correction_by, correction_for};

use code_record::Code;
use letter_sums::{FoundMasks, LetterWords};
use letter_words::{lone_letter, syndrome_words};
use letters::Sign;
use pauli::Pauli;
use search::earliest;

// How many struck qubits a record's claimed distance corrects: t. It is 0 where d is 0.
pub fn radius(code: Code) -> usize
    ensures { result ≡ radius code }
{
    code.d.saturating_sub(1) / 2
}

// What a search found, as a correction: the row with sign +.
fn of_masks(found: Option<FoundMasks>) -> Option<Pauli>
    ensures { result ≡ of_masks found }
{
    found.map(|masks| Pauli::signed(Sign::Plus, masks.a, masks.b))
}

// The correction of weight at most t for a syndrome, by the words of a code's letters. They are made once and lent, and
// serve for any number of syndromes. All second words of `syndrome_words` are 0, so with 1 shunned no string is passed
// over.
pub fn correct_by(words: &LetterWords, t: usize, syndrome: u32) -> Option<Pauli>
    ensures { result ≡ correction_by words.now t syndrome }
{
    of_masks(earliest(words, t, syndrome, 1))
}

// The correction that a record has for a syndrome. The first generator's bit is the lowest of the mask. One letter is
// looked for at all qubits at once; the words are made where one is not enough.
pub fn correct(code: Code, syndrome: u32) -> Option<Pauli>
    ensures { result ≡ correction_for code syndrome }
{
    if syndrome == 0 {
        return Some(Pauli::identity());
    }
    let t = radius(code);
    if t < 1 {
        return None;
    }
    let g = code.g;
    let lone = lone_letter(code.n, code.r, g, syndrome);
    if lone.is_some() || t < 2 {
        return of_masks(lone);
    }
    let words = syndrome_words(code);
    correct_by(&words, t, syndrome)
}
