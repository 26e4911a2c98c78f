// Batches of gathers and scatters, over words that are made from seeds.
use crate::entry::Entry;
use crate::slices;
use answers::Refusal;

// How many words there is room for, in the source and in the destination: the memory is fixed, without a heap.
const ROOM: usize = 16;

// What stands for the refusal where either lacks room, so that no call is made; an entry that holds this byte, and zeros
// for the words afterwards, is then right.
const NO_CALL: u8 = 255;

// Whether the call gives the refusal and leaves the words. The words: how many words the source has, mask, how many the destination has, place, a
// seed for each of the two, and the 16 words of the destination's room afterwards.
pub fn is_right<F: FnOnce(&[u64], u64, &mut [u64], usize) -> Result<(), Refusal>>(
    entry: &Entry,
    batch: F,
) -> bool
    requires { F.IsAlwaysCallable batch }
{
    let mut source = [0u64; ROOM];
    let mut destination = [0u64; ROOM];
    let count = entry.word(0) as usize;
    let size = entry.word(2) as usize;
    let refusal = if count <= ROOM && size <= ROOM {
        slices::make(&mut source, entry.word(4));
        slices::make(&mut destination, entry.word(5));
        answers::refusal_number(batch(
            &source[..count],
            entry.word(1),
            &mut destination[..size],
            entry.word(3) as usize,
        ))
    } else {
        NO_CALL
    };
    refusal == entry.refusal && entry.has_words(6, &destination)
}
