// The report on a sheet and the lines behind it. It is written into a buffer that holds every report, and then, since
// its length is known from there, into one of a byte less than it takes and into one of as many.
ghost use Rattle.std.specs.Prelude.{◌≡◌, replicate};
ghost use Rattle.reporting.specs.Report.{longest_report};
ghost use Rattle.test_cases.specs.Cases.{dot};

use refusals::bytes_written;
use report_writer::write_report;
use test_cases::{print, print_buffer, print_written};

// So many bytes hold every report.
const REPORT_ROOM: usize = 32768;

// No report takes more bytes than that, so the test never holds; it says to the proof that there are as many dots.
pub fn answer_report(rt: &HostRuntime, text: &[u8]) {
    print(rt, b"longer");
    let used = write_into(rt, text, &mut many_dots());
    if REPORT_ROOM < used {
        return;
    }
    print(rt, b"short");
    write_into(rt, text, &mut many_dots()[..used.saturating_sub(1)]);
    print(rt, b"exact");
    write_into(rt, text, &mut many_dots()[..used]);
}

// Bytes for every report. They are dots, so that it can be seen what was written.
fn many_dots() -> [u8; REPORT_ROOM]
    ensures { result ≡ replicate longest_report dot }
{
    [b'.'; REPORT_ROOM]
}

// How many bytes were written.
fn write_into(rt: &HostRuntime, text: &[u8], out: &mut [u8]) -> usize {
    let written = write_report(text, &mut *out);
    print_written(rt, written);
    print_buffer(rt, out);
    bytes_written(written)
}
