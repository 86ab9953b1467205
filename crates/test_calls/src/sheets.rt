// Reads a sheet and writes it back. The answer has what the reader of the lines says, and where they are refused and
// the record is not to be changed, nothing more. Else it goes on with numbers and rows of the record, what is behind
// the lines, and what the reader of a sheet by itself says; then the record is changed, and written into buffers
// about as long as the lines.
use crate::written::{Writer, write_thrice};
use code_record::{Code, LinesReading};
use pauli::Pauli;
use refusals::Family;
use test_cases::{changed, print, print_number, print_refusal};

pub fn answer_sheet(rt: &HostRuntime, text: &[u8], change: usize) {
    let reading = reader::read_lines(text);
    let answer = reading.answer;
    let code = reading.code;
    let used = answer.unwrap_or(0);
    print(rt, b"lines");
    print_reading(rt, reading);
    if used == 0 && change == 0 {
        return;
    }
    print_numbers(rt, code);
    print_rows(rt, code);
    print_behind(rt, sheet_end::behind(text, answer));
    answer_alone(rt, text);
    let changed = changed(code, change);
    write_thrice(rt, Writer::Sheet, changed, used);
}

fn answer_alone(rt: &HostRuntime, text: &[u8]) {
    let alone = sheet_end::read_form(text);
    print(rt, b"alone");
    print_reading(rt, alone);
    print_numbers(rt, alone.code);
}

// How many bytes were read, or a refusal; and the line of w, which is 0 beside a refusal.
fn print_reading(rt: &HostRuntime, reading: LinesReading) {
    match reading.answer {
        Ok(used) => print_number(rt, used),
        Err(refusal) => print_refusal(rt, refusal),
    }
    if reading.claim_at != 0 {
        print_number(rt, reading.claim_at);
    }
    print(rt, b"\n");
}

pub fn print_numbers(rt: &HostRuntime, code: Code) {
    let _ = println!(rt; "record {} {} {}", code.n, code.r, code.d);
}

// The phases and masks of w, of the first row of each family, and of the last generator, or the first where there is
// none.
pub fn print_rows(rt: &HostRuntime, code: Code) {
    print(rt, b"rows");
    print_row(rt, code.w);
    print_row(rt, code.row(Family::Generator, 0));
    print_row(rt, code.row(Family::LogicalX, 0));
    print_row(rt, code.row(Family::LogicalZ, 0));
    print_row(rt, code.row(Family::Generator, code.r.saturating_sub(1)));
    print(rt, b"\n");
}

pub fn print_row(rt: &HostRuntime, row: Pauli) {
    let _ = print!(rt; " {} {} {}", row.p, row.a, row.b);
}

// How many bytes are behind the lines, and these bytes unless they are more than 40.
fn print_behind(rt: &HostRuntime, behind: &[u8]) {
    let _ = println!(rt; "behind {}", behind.len());
    if behind.len() <= 40 {
        print(rt, behind);
        print(rt, b"\n");
    }
}
