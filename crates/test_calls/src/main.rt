// Runs the calls that are proved, so that they can be compared with an implementation that shares nothing with them.
// Standard input is a run of cases, each of one kind: "p" for products of rows, "s" for a sheet that is read and
// written back, "l" for single lines of a sheet, "g" for the group of a sheet's generators, "a" for the admission of a
// sheet, "c" for the checks of a record, "d" for syndromes and corrections of a record, "e" for the corrections of
// errors on an admitted code, "r" for the report on a sheet and the lines behind it.
#![tactic(auto)]

ghost use Rattle.std.specs.Prelude.{◌≤◌};
ghost use Rattle.test_cases.specs.Cases.{buffer_room};

mod admissions;
mod decodings;
mod groups;
mod products;
mod reports;
mod sheets;
mod single_lines;
mod words;
mod written;

use admissions::{answer_admission, answer_checks};
use code_record::LONGEST_SHEET;
use decodings::{answer_corrections, answer_decodings};
use groups::answer_group;
use products::answer_products;
use reports::answer_report;
use sheets::answer_sheet;
use single_lines::answer_lines;
use test_cases::{Case, dots, print, print_buffer};

// Answers cases up to the end of the input, and 65,536 at most, so that the loop has an end.
fn main(rt: HostRuntime) {
    let mut text = [0u8; 65536];
    let mut input = rt.reader();
    for _ in 0..65536usize {
        let Some(Case { kind, change, len }) = test_cases::read_case(&mut input, &mut text) else {
            return;
        };
        answer(&rt, kind, change, &text[0..len]);
    }
}

fn answer(rt: &HostRuntime, kind: u8, change: usize, text: &[u8]) {
    match kind {
        b'p' => answer_products(rt, text),
        b's' => answer_sheet(rt, text, change),
        b'l' => answer_lines(rt, text, change),
        b'g' => answer_group(rt, text, change),
        b'a' => answer_admission(rt, text),
        b'c' => answer_checks(rt, text, change),
        b'd' => answer_decodings(rt, text, change),
        b'e' => answer_corrections(rt, text),
        b'r' => answer_report(rt, text),
        _ => print(rt, b"no kind of case\n"),
    }
}

// A buffer of a byte less than is used is lent, one of as many, and one of three more. `write` prints what the call
// answers. No lines take more bytes than the longest sheet, so the test never holds; it says to the proof that there
// are as many dots.
fn thrice<F: Fn(&mut [u8])>(rt: &HostRuntime, used: usize, write: F)
    requires { F.IsAlwaysCallable write }
{
    if LONGEST_SHEET < used {
        return;
    }
    print(rt, b"short");
    lend(rt, used.saturating_sub(1), &write);
    print(rt, b"exact");
    lend(rt, used, &write);
    print(rt, b"longer");
    lend(rt, used + 3, &write);
}

// A buffer of dots of this length is lent to `write`, and then printed.
fn lend<F: Fn(&mut [u8])>(rt: &HostRuntime, length: usize, write: &F)
    requires callable { F.IsAlwaysCallable write.now }
    requires le_room { length ≤ buffer_room }
{
    let mut buffer = dots();
    let out = &mut buffer[..length];
    write(&mut *out);
    print_buffer(rt, out);
}
