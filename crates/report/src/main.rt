// The program: a sheet and its syndromes on standard input, their report on standard output.
#![tactic(auto)]

ghost use Rattle.std.specs.Prelude.{◌≡◌, ◌≤◌, length, take, IfOk};
ghost use Rattle.reporting.specs.Report.{longest_report, report_text};
ghost use Rattle.report.specs.Input.{IsPrefixLen};

use refusals::bytes_written;
use report_writer::write_report;
use std::io::{self, Read};

// Reads to the end of the input, or as far as the buffer goes. How many bytes were put at the buffer's start. The loop
// goes on by what each read took, so it is no `for`.
fn read_input<R: Read>(input: &mut R, buffer: &mut [u8]) -> io::Result<usize>
    ensures { IfOk result (λ len. IsPrefixLen len buffer.new) }
{
    let mut end: usize = 0;
    while end < buffer.len() {
        let count = input.read(&mut buffer[end..])?;
        if count == 0 {
            return Ok(end);
        }
        end += count;
    }
    Ok(end)
}

// The report of an input, at the start of a buffer that holds every report, and its length.
fn report(input: &[u8], out: &mut [u8]) -> usize
    requires { longest_report ≤ length out.old }
    ensures value { result ≡ length (report_text input.now) }
    ensures out_after { take result out.new ≡ report_text input.now }
{
    bytes_written(write_report(input, out))
}

// Where a read fails there is no report, since the input is not known; where a write fails the report may be cut off.
// Both are told on standard error.
fn main(rt: HostRuntime) -> io::Result<()> {
    let mut input = [0u8; 65536];
    let len = match read_input(&mut rt.reader(), &mut input) {
        Ok(len) => len,
        Err(error) => return eprintln!(rt; "standard input: {error}"),
    };
    let mut output = [0u8; 65536];
    let count = report(&input[..len], &mut output);
    match rt.write_all(&output[..count]) {
        Ok(()) => Ok(()),
        Err(error) => eprintln!(rt; "standard output: {error}"),
    }
}
