// What a writer does with buffers of three lengths.
use crate::thrice;
use code_record::Code;
use pauli::Pauli;
use refusals::Refusal;
use test_cases::print_written;

// Of a record's sheet, of its n and d, of its rows, of its canonical generators, or of the line of a row, of its
// letters or of a number by itself. An enum, and no closure: a function that is given one has to ask that it may be
// called, and `write_thrice` asks for nothing.
#[derive(Clone, Copy)]
pub enum Writer {
    Sheet,
    Numbers,
    Families,
    Canonical,
    Row(Pauli),
    Letters(Pauli),
    Number(usize),
}

// Of a call that counts the bytes it writes.
pub fn write_thrice(rt: &HostRuntime, writer: Writer, code: Code, used: usize) {
    thrice(
        rt,
        used,
        |out| print_written(rt, written(writer, code, out)),
    );
}

fn written(writer: Writer, code: Code, out: &mut [u8]) -> Result<usize, Refusal> {
    match writer {
        Writer::Sheet => writer::write_sheet(code, out),
        Writer::Numbers => numbers_writer::write_numbers(b"n=", code.n, b"d=", code.d, out),
        Writer::Families => families_writer::write_families(code, out),
        Writer::Canonical => canonical::write_canonical(code, out),
        Writer::Row(row) => row_writer::write_row(b'h', code.n, row, out),
        Writer::Letters(row) => row_writer::write_letters(b'e', code.n, row, out),
        Writer::Number(number) => number_writer::write_number(b"n=", number, out),
    }
}
