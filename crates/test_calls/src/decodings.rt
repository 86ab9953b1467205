// Answers questions about syndromes and corrections. The text has a question on each line, an empty line, and a sheet.
// A question is a key, "=" and a value. That of "p" and of "e" is a Pauli: a digit, a sign and up to 32 letters; its
// phase is that of the row, and the digit times 2^28 + 1 more. That of "b" and of "s" is the characters of a syndrome.
// "p" and "b" are answered with all that the calls do, "e" and "s" in one line.
ghost use Rattle.std.specs.Prelude.{◌≤◌, length};

use crate::sheets::print_row;
use crate::thrice;
use crate::words::read_row;
use code_record::Code;
use decoder::Decoded;
use pauli::Pauli;
use refusals::Refusal;
use test_cases::{changed, dots, print, print_number, print_refusal, turned};

// Of the changed record of a sheet. Buffers have lengths about its n and r before the change. These are small in a
// record that was read, and their remainders by 32 change nothing.
pub fn answer_decodings(rt: &HostRuntime, text: &[u8], change: usize) {
    let (questions, sheet) = text.split_at(sheet_start(text));
    let code = sheet_end::read_form(sheet).code;
    answer_questions(rt, changed(code, change), code.n, code.r, questions);
}

// Of the record of an admitted sheet; that of a refused one is empty. The first question's error goes through a whole
// cycle from the sheet on, too.
pub fn answer_corrections(rt: &HostRuntime, text: &[u8]) {
    let (questions, sheet) = text.split_at(sheet_start(text));
    let reading = sheet_reading::read_sheet(sheet);
    let code = reading.code;
    print_admission(rt, reading.answer);
    let error = first_error(questions);
    thrice(
        rt,
        code.n % 32,
        |out| print_decoded(rt, correction_cycle::correct_error(sheet, error, out)),
    );
    answer_questions(rt, code, code.n, code.r, questions);
}

fn print_admission(rt: &HostRuntime, answer: Result<(), Refusal>) {
    print(rt, b"corrections");
    match answer {
        Ok(()) => print(rt, b" admitted"),
        Err(refusal) => print_refusal(rt, refusal),
    }
    print(rt, b"\n");
}

fn first_error(questions: &[u8]) -> Pauli {
    let first = questions.split(|c| *c == b'\n').next();
    match first {
        Some([_, _, value @ ..]) => read_pauli(value),
        _ => Pauli::identity(),
    }
}

// Where the sheet begins: behind the first empty line, or else at the end of the text.
fn sheet_start(text: &[u8]) -> usize
    ensures { result ≤ length text.now }
{
    if text.first() == Some(&b'\n') {
        return 1;
    }
    text.windows(2)
        .position(|pair| matches!(pair, [b'\n', b'\n']))
        .map_or(text.len(), |end| end + 2)
}

fn answer_questions(rt: &HostRuntime, code: Code, n: usize, r: usize, lines: &[u8]) {
    for line in lines.split_inclusive(|c| *c == b'\n') {
        answer_question(rt, code, n, r, line.strip_suffix(b"\n").unwrap_or(line));
    }
}

// The empty line is no question.
fn answer_question(rt: &HostRuntime, code: Code, n: usize, r: usize, line: &[u8]) {
    let [key, _, value @ ..] = line else {
        return;
    };
    match *key {
        b'p' => answer_pauli(rt, code, read_pauli(value), r),
        b'b' => answer_bits(rt, code, n, value),
        b'e' => answer_error(rt, code, read_pauli(value), n, r),
        b's' => answer_syndrome(rt, code, value, n),
        _ => print(rt, b"no question\n"),
    }
}

// I where the value is no Pauli.
fn read_pauli(value: &[u8]) -> Pauli {
    let [digit, word @ ..] = value else {
        return Pauli::identity();
    };
    let more = u32::from(*digit % 16) * 0x1000_0001;
    read_row(word).map_or(Pauli::identity(), |row| turned(row.row, more))
}

// The mask that the characters stand for, and the same where they have to be r; the correction for that mask by value;
// and what the decode call does.
fn answer_bits(rt: &HostRuntime, code: Code, n: usize, characters: &[u8]) {
    let mask = syndrome_reader::read_syndrome(characters.len(), characters);
    print(rt, b"mask");
    print_mask(rt, mask);
    print_mask(rt, syndrome_reader::read_syndrome(code.r, characters));
    print(rt, b"\n");
    if let Some(syndrome) = mask {
        print_by_value(rt, corrections::correct(code, syndrome));
    }
    thrice(
        rt,
        n % 32,
        |out| print_decoded(rt, decoding::decode(code, characters, out)),
    );
}

fn print_mask(rt: &HostRuntime, mask: Option<u32>) {
    match mask {
        Some(mask) => print_number(rt, mask as usize),
        None => print(rt, b" malformed"),
    }
}

fn print_by_value(rt: &HostRuntime, correction: Option<Pauli>) {
    print(rt, b"by value");
    match correction {
        Some(p) => print_row(rt, p),
        None => print(rt, b" none"),
    }
    print(rt, b"\n");
}

// What the syndrome call does.
fn answer_pauli(rt: &HostRuntime, code: Code, p: Pauli, r: usize) {
    thrice(rt, r % 32, |out| {
        match syndrome_writer::write_syndrome(code, p, out) {
            Ok(()) => print(rt, b" given"),
            Err(refusal) => print_refusal(rt, refusal),
        }
        print(rt, b"\n");
    });
}

fn print_decoded(rt: &HostRuntime, decoded: Result<Decoded, Refusal>) {
    match decoded {
        Ok(Decoded::Correction) => print(rt, b" correction"),
        Ok(Decoded::None) => print(rt, b" none"),
        Err(refusal) => print_refusal(rt, refusal),
    }
    print(rt, b"\n");
}

// The characters of an error's syndrome, and the letters of the correction for it.
fn answer_error(rt: &HostRuntime, code: Code, p: Pauli, n: usize, r: usize) {
    let mut characters = dots();
    print_error(rt, code, p, n, &mut characters[0..r % 32]);
}

fn print_error(rt: &HostRuntime, code: Code, p: Pauli, n: usize, characters: &mut [u8]) {
    match syndrome_writer::write_syndrome(code, p, &mut *characters) {
        Ok(()) => print(rt, characters),
        Err(refusal) => print_refusal(rt, refusal),
    }
    print(rt, b" ");
    answer_syndrome(rt, code, characters, n);
}

// The letters of the correction.
fn answer_syndrome(rt: &HostRuntime, code: Code, characters: &[u8], n: usize) {
    let mut letters = dots();
    print_correction(rt, code, characters, &mut letters[0..n % 32]);
}

fn print_correction(rt: &HostRuntime, code: Code, characters: &[u8], letters: &mut [u8]) {
    match decoding::decode(code, characters, &mut *letters) {
        Ok(Decoded::Correction) => print(rt, letters),
        Ok(Decoded::None) => print(rt, b"none"),
        Err(refusal) => print_refusal(rt, refusal),
    }
    print(rt, b"\n");
}
