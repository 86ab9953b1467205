// Multiplies signed rows. The text is a line: one or more rows of one length with a space between them, as "+XX +ZZ",
// and a line feed. The answer is the product of the rows from left to right, whether the last row commutes with the
// product of those before it, and the product's weight: "-YY commutes 2". A line with anything else is answered "not
// rows".
use crate::words::{Row, read_row};
use pauli::Pauli;
use test_cases::print;

// The rows of a line up to some place: their product, and whether the last commutes with the product of the others.
#[derive(Clone, Copy)]
struct Line {
    product: Pauli,
    commutes: bool,
    width: u32,
}

pub fn answer_products(rt: &HostRuntime, text: &[u8]) {
    match Line::read(text) {
        Some(line) => line.print(rt),
        None => print(rt, b"not rows\n"),
    }
}

impl Line {
    // Nothing where a word is no row, or one of another length.
    fn read(text: &[u8]) -> Option<Line> {
        let mut line = Line {
            product: Pauli::identity(),
            commutes: true,
            width: 0,
        };
        for word in text.split_inclusive(|c| matches!(c, b' ' | b'\n')) {
            line = line.with(read_row(unmarked(word))?)?;
        }
        Some(line)
    }

    fn with(self, next: Row) -> Option<Line> {
        if self.width != 0 && self.width != next.width {
            return None;
        }
        Some(Line {
            product: self.product.product(next.row),
            commutes: self.product.commutes(next.row),
            width: next.width,
        })
    }

    fn print(self, rt: &HostRuntime) {
        print_phase(rt, self.product);
        print_letters(rt, self.product, self.width);
        let commutes = if self.commutes {
            "commutes"
        } else {
            "anticommutes"
        };
        let _ = println!(rt; " {commutes} {}", self.product.weight());
    }
}

// The sign of a signed row. Any other Pauli is i times one, and the i is written behind that one's sign.
fn print_phase(rt: &HostRuntime, p: Pauli) {
    if p.is_signed_row() {
        print(rt, &[p.sign().byte()]);
    } else {
        let minus_i = Pauli { p: 3, a: 0, b: 0 };
        print(rt, &[p.product(minus_i).sign().byte(), b'i']);
    }
}

fn print_letters(rt: &HostRuntime, p: Pauli, width: u32) {
    for place in 0..width {
        print(rt, &[p.letter_on(place as usize).byte()]);
    }
}

// A part of a text without the mark behind it, a space or a line feed. The last part may have none.
fn unmarked(part: &[u8]) -> &[u8] {
    match part {
        [bare @ .., b' ' | b'\n'] => bare,
        _ => part,
    }
}
