// A filter of words, for the last letter of a string in the search: it rules most strings out before their last letter
// is looked for.
#![tactic(auto)]

ghost use Rattle.std.specs.Prelude.{◌≡◌, ◌*◌, take};
ghost use Rattle.letter_sums.specs.Sums.{qubit_room};
ghost use Rattle.word_filter.specs.Filter.{slot_of, first_places, may_end};

use letter_sums::WORD_ROOM;

// How many slots a table has, and what stands at a slot that no word has. It is behind every place.
pub const SLOTS: usize = 4096;

const NO_PLACE: u8 = 255;

// The slot of a word. Words that differ only above their twelfth bit would share one, so the upper bits are added in.
fn slot(word: u32) -> usize
    ensures { result ≡ slot_of word }
{
    ((word ^ (word / 4096)) % 4096) as usize
}

// The first place for each slot of a word, of as many words as there is room for in an array of them. The places are
// stored from the last one down, so that the first one stays.
pub fn first_places(words: &[u32], places: &mut [u8; SLOTS])
    ensures { places.new ≡ first_places (take (3 * qubit_room) words.now) }
{
    *places = [NO_PLACE; SLOTS];
    for place in (0..words.len().min(WORD_ROOM)).rev() {
        places[slot(words[place])] = place as u8;
    }
}

// Whether so many letters, whose words have places below `end`, may sum to the wanted word. Without a letter the sum is
// 0, and one letter has a word with the slot of the wanted one. Of more letters nothing is known. A table may be short:
// at a slot behind its end it rules nothing out, as with the place 0.
pub fn may_end(places: &[u8], letters: usize, end: u8, want: u32) -> bool
    ensures { result ≡ may_end places.now letters end want }
{
    match letters {
        0 => want == 0,
        1 => places.get(slot(want)).copied().unwrap_or(0) < end,
        2.. => true,
    }
}
