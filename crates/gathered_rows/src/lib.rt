// The lines of a family's rows, one after the other, until one is off its form.
#![tactic(auto)]

ghost use Rattle.std.specs.Prelude.{◌≡◌, min};
ghost use Rattle.code_record.specs.Record.{row_room};
ghost use Rattle.refusals.specs.Families.{row_key};
ghost use Rattle.gathered_rows.specs.InTurn.{gathered};

use code_record::ROW_ROOM;
use pauli::Pauli;
use refusals::Family;
use row_reader::RowRead;

// Rows, how many they are, and the byte behind their lines.
#[derive(Clone, Copy)]
pub struct Gathered {
    pub end: usize,
    pub count: usize,
    pub rows: [Pauli; ROW_ROOM],
}

// The rows of a family that stand at the start of s, until a line is off its form or `most` are read, or as many as an
// array has room for.
pub fn rows_up_to(s: &[u8], family: Family, most: usize, n: usize) -> Gathered
    ensures { result ≡ gathered (min most row_room) (row_key family) n s.now }
{
    let most = most.min(ROW_ROOM);
    let mut rows = [Pauli::identity(); ROW_ROOM];
    let mut end: usize = 0;
    for count in 0..most {
        let Some(RowRead { used, row }) = row_reader::row_line(&s[end..], family, n) else {
            return Gathered { end, count, rows };
        };
        rows[count] = row;
        end += used;
    }
    Gathered {
        end,
        count: most,
        rows,
    }
}
