// The search for the earliest string of letters whose first words sum to a wanted one and whose second words do not
// sum to a shunned one, bit by bit. It knows nothing of codes: with syndromes as first words it finds a correction, and
// with what is left of a letter by the group's rows as second words it finds a logical error.
#![tactic(auto)]

ghost use Rattle.std.specs.Prelude.{List, ◌≡◌, ℕ, ◌+◌, ◌*◌, ◌^◌, ◌≤◌, ◌<◌, length, take};
ghost use Rattle.letters.specs.Letters.{struck_letter};
ghost use Rattle.word_filter.specs.Filter.{NoneBefore};
ghost use Rattle.letter_sums.specs.Sums.{placed_at, found_as, earliest_of, earliest_up_to, earliest_by};

use letter_sums::{FoundMasks, LetterWords, QUBIT_ROOM};
use letters::Letter;
use word_filter::{SLOTS, first_places, may_end};

// The masks of `gap` letters I, then the letter numbered 0, 1, 2 (X, Y, Z), then `right` letters that have the masks a
// and b.
fn placed(gap: usize, letter: usize, right: usize, a: u32, b: u32) -> Option<FoundMasks>
    requires right_bound { gap + right < 32 }
    requires a_bound { a < 2 ^ right }
    requires b_bound { b < 2 ^ right }
    ensures { result ≡ placed_at gap (struck_letter letter) a b }
{
    let l = Letter::struck(letter);
    Some(FoundMasks {
        a: (l.x_bit() + 2 * a) << gap,
        b: (l.z_bit() + 2 * b) << gap,
    })
}

// The string of letters I, whose words are 0: it is found where they are the wanted one and not the shunned one.
fn identity(want: u32, shun: u64) -> Option<FoundMasks>
    ensures { (first second : List ℕ) (n : ℕ) → result ≡ found_as (earliest_of first second n 0 want shun) }
{
    if want == 0 && shun != 0 {
        Some(FoundMasks { a: 0, b: 0 })
    } else {
        None
    }
}

// The earliest string of a weight on the last `qubits` qubits. The fewer qubits are to the right of the first
// letter that is not I, the earlier is the string.
fn completion(
    places: &[u8],
    first: &[u32],
    second: &[u64],
    qubits: usize,
    weight: usize,
    want: u32,
    shun: u64,
) -> Option<FoundMasks>
    requires qubits_bound { qubits ≤ 32 }
    requires qubits_in_bounds { 3 * qubits ≤ length first.now }
    requires qubits_in_bounds_2 { 3 * qubits ≤ length second.now }
    requires none_before { NoneBefore places.now (take (3 * qubits) first.now) }
    ensures { result ≡ found_as (earliest_of first.now second.now qubits weight want shun) }
{
    if weight == 0 {
        return identity(want, shun);
    }
    // One letter is a scan of the words. So the walk below always leaves a letter, and has one test less a candidate.
    if weight == 1 {
        return lone(first, second, qubits, want, shun);
    }
    let letters = weight - 1;
    'search: {
        for right in letters..qubits {
            for letter in 0..3usize {
                let place = 3 * right + letter;
                let rest = want ^ first[place];
                if may_end(places, letters, place as u8, rest) {
                    let behind = completion(
                        places,
                        first,
                        second,
                        right,
                        letters,
                        rest,
                        shun ^ second[place],
                    );
                    if let Some(FoundMasks { a, b }) = behind {
                        break 'search placed(qubits - right - 1, letter, right, a, b);
                    }
                }
            }
        }
        None
    }
}

// The earliest string of weight at most t, where none of one letter or none is found. No string is heavier than it has
// letters.
fn lightest(
    places: &[u8],
    first: &[u32],
    second: &[u64],
    qubits: usize,
    t: usize,
    want: u32,
    shun: u64,
) -> Option<FoundMasks>
    requires qubits_bound { qubits ≤ 32 }
    requires qubits_in_bounds { 3 * qubits ≤ length first.now }
    requires qubits_in_bounds_2 { 3 * qubits ≤ length second.now }
    requires none_before { NoneBefore places.now (take (3 * qubits) first.now) }
    requires by_index { (v : ℕ) → v < 2 → earliest_of first.now second.now qubits v want shun ≡ None }
    ensures { result ≡ found_as (earliest_up_to first.now second.now qubits t want shun) }
{
    'search: {
        for weight in 2..=t.min(qubits) {
            let found = completion(places, first, second, qubits, weight, want, shun);
            if found.is_some() {
                break 'search found;
            }
        }
        None
    }
}

// The same, with the table by which two letters and more are looked for.
fn heavier(
    first: &[u32],
    second: &[u64],
    qubits: usize,
    t: usize,
    want: u32,
    shun: u64,
) -> Option<FoundMasks>
    requires qubits_bound { qubits ≤ 32 }
    requires qubits_in_bounds { 3 * qubits ≤ length first.now }
    requires qubits_in_bounds_2 { 3 * qubits ≤ length second.now }
    requires by_index { (v : ℕ) → v < 2 → earliest_of first.now second.now qubits v want shun ≡ None }
    ensures { result ≡ found_as (earliest_up_to first.now second.now qubits t want shun) }
{
    let mut places = [0u8; SLOTS];
    first_places(&first[..3 * qubits], &mut places);
    lightest(&places, first, second, qubits, t, want, shun)
}

// The earliest string of one letter: the words are tried in the order of the strings.
fn lone(first: &[u32], second: &[u64], qubits: usize, want: u32, shun: u64) -> Option<FoundMasks>
    requires qubits_bound { qubits ≤ 32 }
    requires qubits_in_bounds { 3 * qubits ≤ length first.now }
    requires qubits_in_bounds_2 { 3 * qubits ≤ length second.now }
    ensures { result ≡ found_as (earliest_of first.now second.now qubits 1 want shun) }
{
    'search: {
        for place in 0..3 * qubits {
            if first[place] == want && second[place] != shun {
                break 'search placed(qubits - place / 3 - 1, place % 3, place / 3, 0, 0);
            }
        }
        None
    }
}

// The earliest string of weight at most t on the qubits that have words. One letter or none is looked for without the
// table, which is made where more are needed.
pub fn earliest(words: &LetterWords, t: usize, want: u32, shun: u64) -> Option<FoundMasks>
    ensures { result ≡ earliest_by words.now t want shun }
{
    let n = words.qubits.min(QUBIT_ROOM);
    let none = identity(want, shun);
    if none.is_some() || t < 1 {
        return none;
    }
    let light = lone(&words.first, &words.second, n, want, shun);
    if light.is_some() || t < 2 {
        return light;
    }
    heavier(&words.first, &words.second, n, t, want, shun)
}
