// The answers of calls as numbers, for programs in C: no enum crosses to them. The number of an answer tells what
// happened: 0 for done, 1 to 17 for a refusal, 255 for `none`.
#![tactic(auto)]

ghost use Rattle.std.specs.Prelude.{◌≡◌};
ghost use Rattle.refusals.specs.Refusals.{values};
ghost use Rattle.rack_answers.specs.Answers.{done, no_correction, family_byte, refused_answer, written_answer};
ghost use Rattle.rack_answers.specs.Answers.{letters_answer, no_value, correction_answer, errors_in, sheet_answer};

use admission::Reading;
use code_record::Code;
use pauli::Pauli;
use refusals::{ErrorPair, Family, Refusal};

// The number of `none`, which is no refusal.
pub const NONE: u32 = 255;

// What every call answers: the number; of a refusal the line that it names and the byte of its row's key, 0 for none;
// and the count of bytes written.
#[repr(C)]
#[derive(Clone, Copy)]
pub struct Answer {
    pub number: u32,
    pub family: u32,
    pub line: usize,
    pub count: usize,
}

// A sheet's reading: beside 14 the two errors, beside every other answer two +I on 0 qubits; and the record.
#[repr(C)]
#[derive(Clone, Copy)]
pub struct SheetAnswer {
    pub answer: Answer,
    pub errors: ErrorPair,
    pub code: Code,
}

// A correction by value: beside a refusal and `none` it is +I.
#[repr(C)]
#[derive(Clone, Copy)]
pub struct CorrectionAnswer {
    pub answer: Answer,
    pub correction: Pauli,
}

// The byte of a row's key, 0 where there is no row.
fn family_byte(family: Option<Family>) -> u32
    ensures { result ≡ family_byte family }
{
    family.map_or(0, |kind| u32::from(kind.key()))
}

impl Answer {
    // The call is done, and has written so many bytes.
    fn done(count: usize) -> Answer
        ensures { result ≡ done count }
    {
        Answer {
            number: 0,
            family: 0,
            line: 0,
            count,
        }
    }

    // There is no correction.
    fn none() -> Answer
        ensures { result ≡ no_correction }
    {
        Answer {
            number: NONE,
            family: 0,
            line: 0,
            count: 0,
        }
    }

    fn refused(refusal: Refusal) -> Answer
        ensures { result ≡ refused_answer refusal }
    {
        let values = refusal.values();
        Answer {
            number: values.number,
            family: family_byte(values.family),
            line: values.line,
            count: 0,
        }
    }
}

// Of a call that counts the bytes it writes.
impl From<Result<usize, Refusal>> for Answer {
    ghost from_gives = { λ answer result. result ≡ written_answer answer };

    fn from(answer: Result<usize, Refusal>) -> Answer {
        answer.map_or_else(Answer::refused, Answer::done)
    }
}

// Of the decode call that counts its letters.
impl From<Result<Option<usize>, Refusal>> for Answer {
    ghost from_gives = { λ answer result. result ≡ letters_answer answer };

    fn from(answer: Result<Option<usize>, Refusal>) -> Answer {
        match answer {
            Ok(Some(n)) => Answer::done(n),
            Ok(None) => Answer::none(),
            Err(refusal) => Answer::refused(refusal),
        }
    }
}

impl CorrectionAnswer {
    // An answer that has no correction.
    fn without(answer: Answer) -> CorrectionAnswer
        ensures { result ≡ no_value answer }
    {
        CorrectionAnswer {
            answer,
            correction: Pauli::identity(),
        }
    }
}

// Of the decode call by value.
impl From<Result<Option<Pauli>, Refusal>> for CorrectionAnswer {
    ghost from_gives = { λ answer result. result ≡ correction_answer answer };

    fn from(answer: Result<Option<Pauli>, Refusal>) -> CorrectionAnswer {
        match answer {
            Ok(Some(correction)) => CorrectionAnswer {
                answer: Answer::done(0),
                correction,
            },
            Ok(None) => CorrectionAnswer::without(Answer::none()),
            Err(refusal) => CorrectionAnswer::without(Answer::refused(refusal)),
        }
    }
}

// The two errors of 14; two +I on 0 qubits of any other refusal.
fn errors_of(refusal: Refusal) -> ErrorPair
    ensures { result ≡ errors_in (values refusal).errors }
{
    match refusal {
        Refusal::DistanceRefuted(_, pair) => pair,
        _ => no_errors(),
    }
}

fn no_errors() -> ErrorPair
    ensures { result ≡ errors_in None }
{
    ErrorPair {
        n: 0,
        e: Pauli::identity(),
        f: Pauli::identity(),
    }
}

// Of a sheet's reading.
impl From<Reading> for SheetAnswer {
    ghost from_gives = { λ reading result. result ≡ sheet_answer reading };

    fn from(reading: Reading) -> SheetAnswer {
        let code = reading.code;
        let answer = reading.answer;
        match answer {
            Ok(()) => SheetAnswer {
                answer: Answer::done(0),
                errors: no_errors(),
                code,
            },
            Err(refusal) => SheetAnswer {
                answer: Answer::refused(refusal),
                errors: errors_of(refusal),
                code,
            },
        }
    }
}
