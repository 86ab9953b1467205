// Admits sheets, and checks records. Of a sheet the answer has whether it is admitted or how it is refused, and numbers
// and rows of the record beside that. The record that is checked is the changed record of a sheet. Its answer has
// whether it passes, and the canonical generators beside that; w is said to stand on a line that no sheet has.
use crate::sheets::{print_numbers, print_row, print_rows};
use reduced_rows::ReducedRows;
use refusals::Refusal;
use test_cases::{changed, print, print_refusal};

pub fn answer_admission(rt: &HostRuntime, text: &[u8]) {
    let reading = sheet_reading::read_sheet(text);
    print(rt, b"admission");
    match reading.answer {
        Ok(()) => print(rt, b" admitted"),
        Err(refusal) => print_fault(rt, refusal),
    }
    print(rt, b"\n");
    print_numbers(rt, reading.code);
    print_rows(rt, reading.code);
}

pub fn answer_checks(rt: &HostRuntime, text: &[u8], change: usize) {
    let reading = sheet_end::read_form(text);
    let code = changed(reading.code, change);
    let checks = code_checks::check_code(code, change % 100 + 1000);
    print(rt, b"checks");
    match checks.answer {
        Ok(()) => print(rt, b" passed"),
        Err(refusal) => print_fault(rt, refusal),
    }
    print(rt, b"\n");
    print_reduced(rt, checks.reduced);
}

// The count of qubits, that of the rows, and the phases and masks of the rows.
fn print_reduced(rt: &HostRuntime, reduced: ReducedRows) {
    let _ = print!(rt; "canonical {} {}", reduced.n, reduced.count);
    for row in reduced.rows.iter().take(reduced.count) {
        print_row(rt, *row);
    }
    print(rt, b"\n");
}

// The refusal, and with 14 the count of qubits and the phases and masks of the two errors.
fn print_fault(rt: &HostRuntime, refusal: Refusal) {
    print_refusal(rt, refusal);
    if let Refusal::DistanceRefuted(_, errors) = refusal {
        let _ = print!(rt; " errors {}", errors.n);
        print_row(rt, errors.e);
        print_row(rt, errors.f);
    }
}
