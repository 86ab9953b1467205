// Whether a record is within its limits: its numbers are in their ranges, its used rows are rows of n qubits and the
// unused ones +I, and w has sign +.
#![tactic(auto)]

ghost use Rattle.std.specs.Prelude.{true, ◌&&◌, ◌≡◌, ◌≤◌, length, take, drop};
ghost use Rattle.letters.specs.Lists.{all_of};
ghost use Rattle.code_record.specs.Record.{most_qubits, most_distance, most_generators};
ghost use Rattle.code_record.specs.Record.{between, on_qubits, is_row, is_claim, within_limits};
ghost use Rattle.unused_rows.specs.Unused.{are_identities};
ghost use Rattle.record_limits.specs.Generators.{generators_within};

use code_record::{Code, MOST_DISTANCE, MOST_QUBITS, ROW_ROOM};
use letters::Sign;
use pauli::Pauli;
use unused_rows::are_unused;

fn between(low: usize, high: usize, m: usize) -> bool
    ensures { result ≡ between low high m }
{
    (low..=high).contains(&m)
}

// Whether a Pauli has no mask bit above qubit n.
fn on_qubits(p: Pauli, n: usize) -> bool
    requires { n ≤ most_qubits }
    ensures { result ≡ on_qubits n p }
{
    let end = 1u32 << n;
    p.a < end && p.b < end
}

// Whether it is a signed row of n qubits.
fn is_row(p: Pauli, n: usize) -> bool
    requires { n ≤ most_qubits }
    ensures { result ≡ is_row n p }
{
    on_qubits(p, n) && p.is_signed_row()
}

// Whether it is a row of n qubits with sign +, as w is.
fn is_claim(p: Pauli, n: usize) -> bool
    requires { n ≤ most_qubits }
    ensures { result ≡ is_claim n p }
{
    on_qubits(p, n) && p.has_sign(Sign::Plus)
}

// Whether n and r are in their ranges.
fn counts_within(n: usize, r: usize) -> bool
    ensures { result ≡ (between 2 most_qubits n && between 1 (most_generators n) r) }
{
    between(2, MOST_QUBITS, n) && between(1, code_record::most_generators(n), r)
}

// Whether n and r are in their ranges, and the first r rows are rows of n qubits.
pub fn generators_within(n: usize, r: usize, g: [Pauli; ROW_ROOM]) -> bool
    ensures { result ≡ generators_within n r g }
{
    if !counts_within(n, r) {
        return false;
    }
    // By place: a reference to the array would copy it first.
    for place in 0..r {
        if !is_row(g[place], n) {
            return false;
        }
    }
    true
}

// Whether the numbers of a record are in their ranges.
fn numbers_within(n: usize, r: usize, d: usize) -> bool
    ensures { result ≡ (between 2 most_qubits n && between 1 (most_generators n) r && between 1 most_distance d) }
{
    counts_within(n, r) && between(1, MOST_DISTANCE, d)
}

// Whether the first m rows are rows of n qubits. One that passes is put to +I, so that all rows can then be tested at
// once. In one loop: `all` and then `fill` take longer.
fn rows_pass(rows: &mut [Pauli], m: usize, n: usize) -> bool
    requires count { m ≤ length rows.old }
    requires qubits { n ≤ most_qubits }
    ensures answer { result ≡ all_of (is_row n) (take m rows.old) }
    ensures rest { result ≡ true → are_identities rows.new ≡ are_identities (drop m rows.old) }
{
    for place in 0..m {
        if !is_row(rows[place], n) {
            return false;
        }
        rows[place] = Pauli::identity();
    }
    true
}

// Whether a record is within its limits.
pub fn within_limits(code: Code) -> bool
    ensures { result ≡ within_limits code }
{
    if !numbers_within(code.n, code.r, code.d) {
        return false;
    }
    let k = code_record::pair_count(code.n, code.r);
    let mut g = code.g;
    if !rows_pass(&mut g, code.r, code.n) {
        return false;
    }
    let mut x = code.x;
    if !rows_pass(&mut x, k, code.n) {
        return false;
    }
    let mut z = code.z;
    if !rows_pass(&mut z, k, code.n) {
        return false;
    }
    are_unused(g, x, z) && is_claim(code.w, code.n)
}
