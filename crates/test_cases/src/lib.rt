// What the test program is given and what it prints: reading the next case, printing an answer, and changes of a row
// and of a record. Standard input is a run of cases: a byte, the kind; two digits, the number of a change; a space;
// five digits, how many bytes follow; a line feed; and those bytes, a text. No contract says what comes from standard
// input or goes to standard output: the language has no name for either. So a function that prints says nothing but
// that it returns.
#![tactic(auto)]

mod output;
mod record;
mod row;

ghost use Rattle.std.specs.Prelude.{◌≡◌, ◌%◌};
ghost use Rattle.test_cases.specs.Cases.{said, IsPrefixLen, Within};

pub use output::{dots, print, print_buffer, print_number, print_refusal, print_written};
pub use record::changed;
pub use row::{above, turned, with_bits};
use std::io::Read;

// A case's kind and change, and how many bytes of its text were read.
#[derive(Clone, Copy)]
pub struct Case {
    pub kind: u8,
    pub change: usize,
    pub len: usize,
}

// Reads the next case, its text to the start of `text`. A text that is longer than that counts as no case.
pub fn read_case<R: Read>(input: &mut R, text: &mut [u8]) -> Option<Case>
    ensures { Within result text.new }
{
    let mut header = [0u8; 10];
    if read_full(&mut *input, &mut header) < 10 {
        return None;
    }
    let kind = header[0];
    let change = number(&header[1..3]);
    let announced = number(&header[4..9]);
    if text.len() < announced {
        return None;
    }
    let len = read_full(input, &mut text[0..announced]);
    Some(Case { kind, change, len })
}

// Reads until the buffer is full, the input ends or a read fails. How many bytes were put at the buffer's start.
fn read_full<R: Read>(input: &mut R, buffer: &mut [u8]) -> usize
    ensures { IsPrefixLen result buffer.new }
{
    let mut end: usize = 0;
    while end < buffer.len() {
        let count = input.read(&mut buffer[end..]).unwrap_or(0);
        if count == 0 {
            return end;
        }
        end += count;
    }
    end
}

// The number that digits say. The remainder takes nothing away from five digits, the most that a header has.
fn number(digits: &[u8]) -> usize
    ensures { result ≡ said digits.now % 1000000 }
{
    let mut number = 0;
    for digit in digits {
        number = (number * 10 + usize::from(digit % 16)) % 1000000;
    }
    number
}
