// Changes of a record, so that a call gets records that no sheet has.
use crate::row::{above, turned, with_bits};
use code_record::{Code, ROW_ROOM, pair_count};
use pauli::Pauli;
use refusals::Family;

// The record with one thing changed, by the number of the change, as the format of standard input has it: n, r or d up
// to 10, w up to 13, every phase with 14, then a generator, and from 23 on a logical row. In a record that was read n
// and d are small, and the remainders change nothing.
pub fn changed(code: Code, change: usize) -> Code {
    let mut c = code;
    let w = code.w;
    match change {
        0 => {}
        1 => c.n = 1,
        2 => c.n = 25,
        3 => c.n = usize::MAX,
        4 => c.r = 0,
        5 => c.r = code.n,
        6 => c.r = code.n % 32 + 1,
        7 => c.r = usize::MAX,
        8 => c.d = 0,
        9 => c.d = 8,
        10 => c.d = code.d % 16 + 1,
        11 => return with_claim(code, turned(w, 1)),
        12 => return with_claim(code, turned(w, 2)),
        13 => return with_claim(code, with_bits(w, 0, above(code.n))),
        14 => return with_phases(code),
        _ => return changed_generator(code, change),
    }
    c
}

// The phase of a generator is changed by i, by a sign, and by a multiple of 4, which is no change.
fn changed_generator(code: Code, change: usize) -> Code {
    let g = Family::Generator;
    let first = code.row(g, 0);
    let above = above(code.n);
    match change {
        15 => with_row(code, g, 0, with_bits(first, above, 0)),
        16 => with_row(code, g, 0, with_bits(first, 0, above)),
        17 => with_row(code, g, 0, turned(first, 1)),
        18 => with_row(code, g, 0, turned(first, 2)),
        19 => with_row(code, g, 0, turned(first, 0xFFFF_FFFC)),
        20 => with_row(code, g, code.r, Pauli { p: 0, a: 1, b: 0 }),
        21 => with_row(code, g, ROW_ROOM - 1, Pauli { p: 8, a: 0, b: 0 }),
        22 => with_row(code, g, ROW_ROOM - 1, Pauli { p: 0, a: 0, b: 1 }),
        _ => changed_logical(code, change),
    }
}

fn changed_logical(code: Code, change: usize) -> Code {
    let x = Family::LogicalX;
    let z = Family::LogicalZ;
    let first_x = code.row(x, 0);
    let first_z = code.row(z, 0);
    let pairs = pair_count(code.n, code.r);
    match change {
        23 => with_row(code, x, 0, with_bits(first_x, 0x8000_0000, 0)),
        24 => with_row(code, x, 0, turned(first_x, 1)),
        25 => with_row(code, x, 0, turned(first_x, 2)),
        26 => with_row(code, x, pairs, Pauli { p: 0, a: 0, b: 1 }),
        27 => with_row(code, z, 0, with_bits(first_z, 0, 0x8000_0000)),
        28 => with_row(code, z, 0, turned(first_z, 3)),
        29 => with_row(code, z, ROW_ROOM - 1, Pauli { p: 2, a: 0, b: 0 }),
        _ => code,
    }
}

fn with_row(code: Code, family: Family, place: usize, row: Pauli) -> Code {
    let mut c = code;
    if place < ROW_ROOM {
        match family {
            Family::Generator => c.g[place] = row,
            Family::LogicalX => c.x[place] = row,
            Family::LogicalZ => c.z[place] = row,
        }
    }
    c
}

fn with_claim(code: Code, w: Pauli) -> Code {
    Code { w, ..code }
}

// Every phase with 4 more, which is the same phase.
fn with_phases(code: Code) -> Code {
    Code {
        g: code.g.map(|row| turned(row, 4)),
        x: code.x.map(|row| turned(row, 4)),
        z: code.z.map(|row| turned(row, 4)),
        w: turned(code.w, 4),
        ..code
    }
}
