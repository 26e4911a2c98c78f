// Batches of gathers and scatters at 64 bits: the words of a source, under one mask, into a destination from a place on.
#![tactic(auto)]

ghost use Rattle.std.specs.Prelude.{◌≡◌, ◌++◌, map, ◌≤◌, ℕ, length, drop};
ghost use Rattle.int_bits.specs.Gather.{gather, scatter};
ghost use Rattle.batches.specs.Batch.{Computes, ChecksRoom, Batches};

use answers::Refusal;

// Whether a destination of a size has room for so many words from a place on.
#[tactic(auto, unfolding(crate::specs::Batch::room_reply))]
pub fn room_check(count: usize, size: usize, place: usize) -> Result<(), Refusal>
    ensures { ChecksRoom count size place result }
{
    if place > size {
        return Err(Refusal::NoRoom);
    }
    if count > size - place {
        return Err(Refusal::NoRoom);
    }
    Ok(())
}

// The results of a source into the front of a destination that has room for them.
fn fill<F: Fn(u64) -> u64>(source: &[u64], destination: &mut [u64], move_word: F)
    requires room { length source.now ≤ length destination.old }
    requires callable { F.IsAlwaysCallable move_word }
    ensures { (f : ℕ → ℕ) → Computes (F.post move_word) f → destination.new ≡ map f source.now ++ drop (length source.now) destination.old }
{
    // By the index: of what is written through `iter_mut().zip(..)` a proof learns no word.
    for (i, &word) in source.iter().enumerate() {
        destination[i] = move_word(word);
    }
}

// The results of a source into a destination from a place on, if they fit.
#[tactic(auto, using(crate::proofs::Laws::room))]
fn batch<F: Fn(u64) -> u64>(
    source: &[u64],
    destination: &mut [u64],
    place: usize,
    move_word: F,
) -> Result<(), Refusal>
    requires { F.IsAlwaysCallable move_word }
    ensures { (f : ℕ → ℕ) → Computes (F.post move_word) f → Batches f source.now destination.old place result destination.new }
{
    room_check(source.len(), destination.len(), place)?;
    fill(source, &mut destination[place..], move_word);
    Ok(())
}

// Each word of the source, gathered under the mask, into the destination from the place on. A C function of its own calls each of the two.
pub fn gather_batch(
    source: &[u64],
    mask: u64,
    destination: &mut [u64],
    place: usize,
) -> Result<(), Refusal>
    ensures { Batches (λ x. gather 64 x mask) source.now destination.old place result destination.new }
{
    let masks = int_bits::prepare(mask);
    let gathered = |x| int_bits::extract_impl(masks, x, mask);
    batch(source, destination, place, gathered)
}

// Each word of the source, scattered under the mask, into the destination from the place on.
pub fn scatter_batch(
    source: &[u64],
    mask: u64,
    destination: &mut [u64],
    place: usize,
) -> Result<(), Refusal>
    ensures { Batches (λ x. scatter 64 x mask) source.now destination.old place result destination.new }
{
    let masks = int_bits::prepare(mask);
    let scattered = |x| int_bits::deposit_impl(masks, x, mask);
    batch(source, destination, place, scattered)
}
