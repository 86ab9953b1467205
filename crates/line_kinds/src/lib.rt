// The kinds of lines in a sheet and behind it, which their keys tell.
#![tactic(auto)]

ghost use Rattle.std.specs.Prelude.{◌≡◌};
ghost use Rattle.letters.specs.Lists.{bytes};
ghost use Rattle.refusals.specs.Families.{row_key};
ghost use Rattle.sheet.specs.Reader.{begins};
ghost use Rattle.line_kinds.specs.LineKinds.{line_kind};

use refusals::Family;

// The kinds of lines, each told by its key.
#[derive(Clone, Copy, PartialEq, Eq)]
pub enum LineKind {
    Qubits,
    Distance,
    Generator,
    LogicalX,
    LogicalZ,
    Claim,
    Syndrome,
    Other,
}

// The kind of the line at the start of s.
pub fn line_kind(s: &[u8]) -> LineKind
    ensures { result ≡ line_kind s.now }
{
    let [key, b'=', ..] = s else {
        return LineKind::Other;
    };
    match *key {
        b'n' => LineKind::Qubits,
        b'd' => LineKind::Distance,
        b'g' => LineKind::Generator,
        b'x' => LineKind::LogicalX,
        b'z' => LineKind::LogicalZ,
        b'w' => LineKind::Claim,
        b's' => LineKind::Syndrome,
        _ => LineKind::Other,
    }
}

// Whether a row of the family stands at the start of s.
pub fn begins_row(s: &[u8], family: Family) -> bool
    ensures { result ≡ begins (bytes (row_key family)) s.now }
{
    let kind = match family {
        Family::Generator => LineKind::Generator,
        Family::LogicalX => LineKind::LogicalX,
        Family::LogicalZ => LineKind::LogicalZ,
    };
    line_kind(s) == kind
}
