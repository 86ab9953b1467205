// Answers on standard output. A write that fails is passed over, and the output is then shorter than it should be.
ghost use Rattle.std.specs.Prelude.{◌≡◌, ◌≤◌, length, replicate};
ghost use Rattle.test_cases.specs.Cases.{buffer_room, dot, shown};

use refusals::Refusal;

pub fn print(rt: &HostRuntime, text: &[u8]) {
    let _ = rt.write_all(text);
}

// Behind a space.
pub fn print_number(rt: &HostRuntime, number: usize) {
    let _ = print!(rt; " {number}");
}

// The number, the line, and the family where there is one.
pub fn print_refusal(rt: &HostRuntime, refusal: Refusal) {
    let values = refusal.values();
    let _ = print!(rt; " r={} at={}", values.number, values.line);
    if let Some(family) = values.family {
        let _ = print!(rt; " of={}", char::from(family.key()));
    }
}

pub fn print_written(rt: &HostRuntime, written: Result<usize, Refusal>) {
    match written {
        Ok(count) => print_number(rt, count),
        Err(refusal) => print_refusal(rt, refusal),
    }
    print(rt, b"\n");
}

// How many bytes a writer is lent at most: some more than the longest sheet has.
const BUFFER_ROOM: usize = 1360;

// Bytes for a writer to write into. They are dots, so that it can be seen what was written.
pub fn dots() -> [u8; BUFFER_ROOM]
    ensures { result ≡ replicate buffer_room dot }
{
    [b'.'; BUFFER_ROOM]
}

// The bytes up to the last that is no dot, and how many dots follow.
pub fn print_buffer(rt: &HostRuntime, buffer: &[u8]) {
    let end = shown_len(buffer);
    print(rt, &buffer[0..end]);
    print_number(rt, buffer.len() - end);
    print(rt, b"\n");
}

// How many bytes there are up to the last that is no dot.
fn shown_len(buffer: &[u8]) -> usize
    ensures value { result ≡ shown buffer.now }
    ensures upper_bound { result ≤ length buffer.now }
{
    let mut shown = buffer;
    while let [rest @ .., b'.'] = shown {
        shown = rest;
    }
    shown.len()
}
