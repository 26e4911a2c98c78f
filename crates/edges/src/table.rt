// Reads and guarded writes of card tables, whose words are made from a seed.
use crate::entry::Entry;
use crate::slices;
use cards::Field;

// How many words there is room for, in fixed memory: one more than a table may have.
const ROOM: usize = 4097;

// The field that an entry's call is about.
fn field_of(entry: &Entry) -> Field {
    Field {
        card: entry.word(3) as usize,
        mask: entry.word(4),
    }
}

// Whether a read gives the refusal and the value, if there is room for the table. The words: value, how many words the table has, its seed, card,
// mask.
pub fn is_read_right(entry: &Entry) -> bool {
    let mut room = [0u64; ROOM];
    let length = entry.word(1) as usize;
    if length > ROOM {
        return false;
    }
    slices::make(&mut room, entry.word(2));
    entry.has_answer(field_of(entry).read(&room[..length]))
}

// Whether a guarded write gives the refusal, and leaves the word at its card and every other word as it was, if there is room for the table. The
// words: the card's word afterwards, how many words the table has, its seed, card, mask, expected, new.
pub fn is_write_right(entry: &Entry) -> bool {
    let mut room = [0u64; ROOM];
    let length = entry.word(1) as usize;
    if length > ROOM {
        return false;
    }
    slices::make(&mut room, entry.word(2));
    let field = field_of(entry);
    let mut after = room;
    slices::put(&mut after[..length], field.card, entry.word(0));
    let given = field.write(&mut room[..length], entry.word(5), entry.word(6));
    answers::refusal_number(given) == entry.refusal && room == after
}
