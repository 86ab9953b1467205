// Writes single lines of the changed record of a sheet, into buffers about as long as a line: that of the first
// generator with the key h, that of its letters with the key e, that of n, which may be any number, and that of the X
// mask of w. Then the lines of n and d, and those of all rows.
use crate::written::{Writer, write_thrice};
use code_record::pair_count;
use refusals::Family;
use test_cases::changed;

pub fn answer_lines(rt: &HostRuntime, text: &[u8], change: usize) {
    let reading = sheet_end::read_form(text);
    let code = reading.code;
    let changed = changed(code, change);
    let first = changed.row(Family::Generator, 0);
    let w = changed.w;
    write_thrice(rt, Writer::Row(first), changed, code.n % 32 + 4);
    write_thrice(rt, Writer::Letters(first), changed, code.n % 32 + 3);
    write_thrice(rt, Writer::Number(changed.n), changed, 23);
    write_thrice(rt, Writer::Number(w.a as usize), changed, 8);
    write_thrice(rt, Writer::Numbers, changed, 8);
    write_thrice(rt, Writer::Families, changed, rows_length(code.n, code.r));
}

// How many bytes the lines of all rows have, of which there are n generators and X logicals. In a record that was read
// the numbers are small, and the remainders change nothing.
fn rows_length(n: usize, r: usize) -> usize {
    let rows = n % 32 + pair_count(n, r) % 32;
    rows * (n % 32 + 4)
}
