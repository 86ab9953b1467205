// The reader of a syndrome: characters 0 and 1, to a mask.
#![tactic(auto)]

ghost use Rattle.std.specs.Prelude.{[], ◌∷◌, ◌≡◌};
ghost use Rattle.syndrome_reader.specs.Mask.{read_mask};

use code_record::ROW_ROOM;

// One character, as a syndrome of one bit.
fn read_character(c: u8) -> Option<u32>
    ensures { result ≡ read_mask 1 (c ∷ []) }
{
    match c {
        b'0' => Some(0),
        b'1' => Some(1),
        _ => None,
    }
}

// The syndrome of r generators as a mask, the first generator's bit the lowest. The mask grows from the last character
// to the first, each doubling those behind it. Where r is above the room for generators nothing is read, since the mask
// has no more bits.
pub fn read_syndrome(r: usize, characters: &[u8]) -> Option<u32>
    ensures { result ≡ read_mask r characters.now }
{
    if ROW_ROOM < r {
        return None;
    }
    if characters.len() != r {
        return None;
    }
    let mut mask: u32 = 0;
    for &character in characters.iter().rev() {
        mask = read_character(character)? + 2 * mask;
    }
    Some(mask)
}
