// What is computed of the group of a sheet's generators. The record that is read is changed. The answer has what the
// elimination says, and where it refuses a record that is as it was read, nothing more. Else it goes on with the sign
// of the member with each probe's masks, and the canonical generators are written into buffers about as long as their
// lines. The probes are the x rows, the z rows, w, w with another phase, and w with a bit above qubit n in either
// mask.
ghost use Rattle.std.specs.Prelude.{◌≤◌};

use crate::written::{Writer, write_thrice};
use code_record::{Code, pair_count};
use pauli::Pauli;
use reduced_rows::ReducedRows;
use refusals::{Family, Refusal};
use test_cases::{above, changed, print, print_number, print_refusal, turned, with_bits};

pub fn answer_group(rt: &HostRuntime, text: &[u8], change: usize) {
    let reading = sheet_end::read_form(text);
    let code = reading.code;
    let n = code.n;
    let r = code.r;
    let changed = changed(code, change);
    let elimination = elimination::eliminate(changed);
    let reduced = elimination.reduced;
    print_checked(rt, elimination.answer, reduced.count);
    if reduced.count == 0 && change == 0 {
        return;
    }
    print_probes(rt, changed, reduced, n, r);
    let lines = lines_length(n, r);
    write_thrice(rt, Writer::Canonical, changed, lines);
}

// How many bytes the lines of r rows of n letters have. In a record that was read both are small, and the remainders
// change nothing.
fn lines_length(n: usize, r: usize) -> usize
    ensures { result ≤ 1085 }
{
    let line = n % 32 + 4;
    r % 32 * line
}

fn print_checked(rt: &HostRuntime, answer: Result<(), Refusal>, count: usize) {
    print(rt, b"group");
    match answer {
        Ok(()) => print_number(rt, count),
        Err(refusal) => print_refusal(rt, refusal),
    }
    print(rt, b"\n");
}

// The memberships of all probes of a record that was read with n and r.
fn print_probes(rt: &HostRuntime, code: Code, reduced: ReducedRows, n: usize, r: usize) {
    print(rt, b"probes");
    let pairs = pair_count(n, r);
    print_family(rt, code, reduced, Family::LogicalX, pairs);
    print_family(rt, code, reduced, Family::LogicalZ, pairs);
    let w = code.w;
    print_membership(rt, code, reduced, w);
    print_membership(rt, code, reduced, turned(w, 1));
    print_membership(rt, code, reduced, with_bits(w, above(n), 0));
    print_membership(rt, code, reduced, with_bits(w, 0, above(n)));
    print(rt, b"\n");
}

fn print_family(rt: &HostRuntime, code: Code, reduced: ReducedRows, family: Family, count: usize) {
    for place in 0..count {
        print_membership(rt, code, reduced, code.row(family, place));
    }
}

// The sign of the member with p's masks, or that there is none; a mark behind it where `contains` says otherwise.
fn print_membership(rt: &HostRuntime, code: Code, reduced: ReducedRows, p: Pauli) {
    let sign = match membership::membership_of(code, p) {
        Ok(sign) => sign,
        Err(refusal) => return print_refusal(rt, refusal),
    };
    match sign {
        Some(sign) => print(rt, &[b' ', sign.byte()]),
        None => print(rt, b" no"),
    }
    if reduced.contains(p) != sign.is_some() {
        print(rt, b"!");
    }
}
