// Slices of words that are lent to calls.
ghost use Rattle.std.specs.Prelude.{◌≡◌, slice_set};
ghost use Rattle.edges.specs.Words.{made_at, Each};

// Makes the words of a slice from a seed: each is a step above the one before, modulo 2^64.
#[tactic(auto, using(crate::proofs::Written::written_start, crate::proofs::Written::written_next, crate::proofs::Written::written_end), unfolding(crate::specs::Words::made_at))]
pub fn make(words: &mut [u64], seed: u64)
    ensures { Each (made_at seed) words.new }
{
    let mut next = seed;
    for word in words.iter_mut() {
        *word = next;
        next = next.wrapping_add(0x9E37_79B9_7F4A_7C15);
    }
}

// Puts a word at an index; past the end there is nothing to put, which `get_mut` would not say.
pub fn put(words: &mut [u64], at: usize, word: u64)
    ensures { words.new ≡ slice_set words.old at word }
{
    if at < words.len() {
        words[at] = word;
    }
}
