// The reader of the lines of syndromes that stand behind a sheet in the input of a report.
#![tactic(auto)]

ghost use Rattle.std.specs.Prelude.{◌≡◌};
ghost use Rattle.syndrome_lines.specs.SyndromeLines.{mask_line, check_lines};

use code_record::ROW_ROOM;
use line_kinds::LineKind;

// The line of a syndrome of r generators, at the start of s, as a mask. r is tested before the line feed is looked for,
// so that its place is a usize.
pub fn read_syndrome_line(s: &[u8], r: usize) -> Option<u32>
    ensures { result ≡ mask_line r s.now }
{
    if line_kinds::line_kind(s) != LineKind::Syndrome {
        return None;
    }
    if ROW_ROOM < r {
        return None;
    }
    if !line_parts::line_feed_at(s, r + 2) {
        return None;
    }
    syndrome_reader::read_syndrome(r, &s[2..r + 2])
}

// A line is off its form, behind so many that were read.
#[derive(Clone, Copy)]
pub struct OffForm {
    pub before: usize,
}

// Whether all of s is lines of syndromes of r generators. The loop goes on by each line that was read, so it is no
// `for`.
pub fn check_syndromes(s: &[u8], r: usize) -> Result<(), OffForm>
    ensures { result ≡ check_lines r s.now }
{
    let mut end: usize = 0;
    let mut count: usize = 0;
    while end < s.len() {
        let Some(_) = read_syndrome_line(&s[end..], r) else {
            return Err(OffForm { before: count });
        };
        end += r + 3;
        count += 1;
    }
    Ok(())
}
