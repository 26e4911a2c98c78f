// Batches as C functions: the refusal, or 0. Source and destination are each a pointer and a count of words.
ghost use Rattle.std.specs.Prelude.{◌≡◌, length};
ghost use Rattle.answers.specs.Reply.{refusal_of};
ghost use Rattle.int_bits.specs.Gather.{gather, scatter};
ghost use Rattle.batches.specs.Batch.{room_reply, batched};

#[unsafe(no_mangle)]
pub extern "C" fn ply_gather_batch(
    source: &[u64],
    mask: u64,
    destination: &mut [u64],
    place: usize,
) -> u8
    ensures returns { result ≡ refusal_of (room_reply (length source.now) (length destination.old) place) }
    ensures leaves { destination.new ≡ batched (λ x. gather 64 x mask) source.now destination.old place }
{
    answers::refusal_number(batches::gather_batch(source, mask, destination, place))
}

#[unsafe(no_mangle)]
pub extern "C" fn ply_scatter_batch(
    source: &[u64],
    mask: u64,
    destination: &mut [u64],
    place: usize,
) -> u8
    ensures returns { result ≡ refusal_of (room_reply (length source.now) (length destination.old) place) }
    ensures leaves { destination.new ≡ batched (λ x. scatter 64 x mask) source.now destination.old place }
{
    answers::refusal_number(batches::scatter_batch(source, mask, destination, place))
}
